//! What holds of all orders of requests, as contracts of functions that do nothing.

ghost use Rattle.cfs_requests.specs.Looks.{FoundIsAllowed};
ghost use Rattle.cfs_requests.specs.Steps.{OrdersGoOn};

/// A legal order goes on with a request that is answered by the tree and the grants that it left.
pub fn orders_go_on()
    ensures { OrdersGoOn }
{}

/// An open finds no directory, and no file for an access that its user has no right to.
pub fn found_is_allowed()
    ensures { FoundIsAllowed }
{}
