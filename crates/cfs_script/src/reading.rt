//! Reading one line, word by word.

ghost use Rattle.std.specs.Prelude.{◌≡◌};
ghost use Rattle.cfs_words.specs.Parts.{words_of};
ghost use Rattle.cfs_words.specs.Reading.{Gives};
ghost use Rattle.cfs_script.specs.Reading.{after_caller, after_order, form_of};

use crate::Form;
use crate::form::CALLERS;
use crate::order::Order;
use crate::order_reading::read_order;
use crate::verb::Verb;
use crate::verb_reading::read_verb;
use cfs_words::{WordRefusal, Words, number_in};
use std::alloc::Global;

/// The form that the line spells.
#[tactic(auto, unfolding(crate::specs::Reading::form_of))]
pub(crate) fn form_in(alloc: Global, line: &[u8]) -> Result<Form, WordRefusal>
    ensures { Gives (λ form. form) result (form_of (words_of line.now)) }
{
    let mut words = Words::of(line);
    let first = words.word()?;
    match number_in(first, 1, CALLERS) {
        Some(caller) => form_of_caller(alloc, caller, &mut words),
        None => form_of_order(first, &mut words),
    }
}

/// A line that begins with a caller's number.
#[tactic(auto, unfolding(crate::specs::Reading::after_caller))]
fn form_of_caller(alloc: Global, caller: u64, words: &mut Words<'_>) -> Result<Form, WordRefusal>
    ensures { Gives (λ form. form) result (after_caller caller words.old) }
{
    let word = words.word()?;
    let verb = Verb::named(word).ok_or(WordRefusal::Outside)?;
    read_verb(alloc, caller, verb, words)
}

/// A line that begins with an order.
#[tactic(auto, unfolding(crate::specs::Reading::after_order))]
fn form_of_order(first: &[u8], words: &mut Words<'_>) -> Result<Form, WordRefusal>
    ensures { Gives (λ form. form) result (after_order first.now words.old) }
{
    let order = Order::named(first).ok_or(WordRefusal::Outside)?;
    read_order(order, words)
}
