//! Reading what follows an order.

ghost use Rattle.std.specs.Prelude.{◌≡◌, ℕ};
ghost use Rattle.cfs_words.specs.Reading.{Gives};
ghost use Rattle.cfs_script.specs.Reading.{order_read};
ghost use Rattle.cfs_script.specs.declared.order.Order.TheVariants as orders;

use crate::Form;
use crate::form::CALLERS;
use crate::order::Order;
use cfs_words::{LARGEST_NUMBER, WordRefusal, Words};

/// Reads what follows the word that begins the line.
pub(crate) fn read_order(order: Order, words: &mut Words<'_>) -> Result<Form, WordRefusal>
    ensures { Gives (λ form. form) result (order_read order words.old) }
{
    match order {
        Order::Dispatch => dispatch(words),
        Order::Apply => apply(words),
        Order::Finish => finish(words),
        Order::Skip => skip(words),
        Order::Trim => trim(words),
        Order::Settle => settle(words),
        Order::Turn => turn(words),
        Order::Drain => drain(words),
        Order::Caller => caller(words),
        Order::Queue => queue(words),
        Order::Stop => stop(words),
        Order::Crash => crash(words),
        Order::Mount => mount(words),
        Order::Fail => fail(words),
        Order::FailRead => fail_read(words),
        Order::Cut => cut(words),
    }
}

fn dispatch(words: &mut Words<'_>) -> Result<Form, WordRefusal>
    ensures { Gives (λ form. form) result (order_read orders.Dispatch words.old) }
{
    let ino = words.any_number()?;
    let place = words.any_number()?;
    words.end()?;
    Ok(Form::Dispatch { ino, place })
}

fn apply(words: &mut Words<'_>) -> Result<Form, WordRefusal>
    ensures { Gives (λ form. form) result (order_read orders.Apply words.old) }
{
    let ino = words.any_number()?;
    let place = words.any_number()?;
    words.end()?;
    Ok(Form::Apply { ino, place })
}

fn finish(words: &mut Words<'_>) -> Result<Form, WordRefusal>
    ensures { Gives (λ form. form) result (order_read orders.Finish words.old) }
{
    let ino = words.any_number()?;
    let place = words.any_number()?;
    words.end()?;
    Ok(Form::Finish { ino, place })
}

fn skip(words: &mut Words<'_>) -> Result<Form, WordRefusal>
    ensures { Gives (λ form. form) result (order_read orders.Skip words.old) }
{
    let ino = words.any_number()?;
    let place = words.any_number()?;
    words.end()?;
    Ok(Form::Skip { ino, place })
}

fn trim(words: &mut Words<'_>) -> Result<Form, WordRefusal>
    ensures { Gives (λ form. form) result (order_read orders.Trim words.old) }
{
    let ino = words.any_number()?;
    words.end()?;
    Ok(Form::Trim { ino })
}

fn settle(words: &mut Words<'_>) -> Result<Form, WordRefusal>
    ensures { Gives (λ form. form) result (order_read orders.Settle words.old) }
{
    let ino = words.any_number()?;
    words.end()?;
    Ok(Form::Settle { ino })
}

fn turn(words: &mut Words<'_>) -> Result<Form, WordRefusal>
    ensures { Gives (λ form. form) result (order_read orders.Turn words.old) }
{
    words.end()?;
    Ok(Form::Turn)
}

fn drain(words: &mut Words<'_>) -> Result<Form, WordRefusal>
    ensures { Gives (λ form. form) result (order_read orders.Drain words.old) }
{
    words.end()?;
    Ok(Form::Drain)
}

fn caller(words: &mut Words<'_>) -> Result<Form, WordRefusal>
    ensures { Gives (λ form. form) result (order_read orders.Caller words.old) }
{
    let caller = words.number(1, CALLERS)?;
    let uid = words.short_number()?;
    let gid = words.short_number()?;
    words.end()?;
    Ok(Form::Caller { caller, uid, gid })
}

fn queue(words: &mut Words<'_>) -> Result<Form, WordRefusal>
    ensures { Gives (λ form. form) result (order_read orders.Queue words.old) }
{
    let caller = words.number(1, CALLERS)?;
    let fd = words.short_number()?;
    words.end()?;
    Ok(Form::Queue { caller, fd })
}

fn stop(words: &mut Words<'_>) -> Result<Form, WordRefusal>
    ensures { Gives (λ form. form) result (order_read orders.Stop words.old) }
{
    let step = words.number(1, LARGEST_NUMBER)?;
    words.end()?;
    Ok(Form::Stop { step })
}

fn crash(words: &mut Words<'_>) -> Result<Form, WordRefusal>
    ensures { Gives (λ form. form) result (order_read orders.Crash words.old) }
{
    let pick = words.any_number()?;
    words.end()?;
    Ok(Form::Crash { pick })
}

fn mount(words: &mut Words<'_>) -> Result<Form, WordRefusal>
    ensures { Gives (λ form. form) result (order_read orders.Mount words.old) }
{
    words.end()?;
    Ok(Form::Mount)
}

fn fail(words: &mut Words<'_>) -> Result<Form, WordRefusal>
    ensures { Gives (λ form. form) result (order_read orders.Fail words.old) }
{
    let device = words.target()?;
    let step = words.number(1, LARGEST_NUMBER)?;
    words.end()?;
    Ok(Form::Fail { device, step })
}

fn fail_read(words: &mut Words<'_>) -> Result<Form, WordRefusal>
    ensures { Gives (λ form. form) result (order_read orders.FailRead words.old) }
{
    let device = words.target()?;
    let step = words.number(1, LARGEST_NUMBER)?;
    words.end()?;
    Ok(Form::FailRead { device, step })
}

fn cut(words: &mut Words<'_>) -> Result<Form, WordRefusal>
    ensures { Gives (λ form. form) result (order_read orders.Cut words.old) }
{
    let step = words.number(1, LARGEST_NUMBER)?;
    let pick = words.any_number()?;
    words.end()?;
    Ok(Form::Cut { step, pick })
}
