// What the words of a line say.
ghost use Rattle.std.specs.Prelude.{◌≡◌, ◌∷◌, IfOk, is_some};
ghost use Rattle.std.specs.Option.{option_map};
ghost use Rattle.setup_file.specs.Items.{ladder_of, order_of, numbers_of, make_of, store_made, store_content, object_called, policy_of};
ghost use Rattle.setup_file.specs.Reading.{SaysItem, SaysLine};
ghost use Rattle.setup_file.specs.SetupFiles.{with_words};
ghost use Rattle.setup_file.specs.Words.{words_of};
ghost use Rattle.setup_file.specs.WordsLeft.{words_left};

use crate::error::Problem;
use crate::keywords::{CELL, CELLS, LADDER, LOG, ORDER, POLICY, RIGHTS, SLICE, TABLE, VECTOR};
use crate::number::{long, short};
use crate::setup::{Make, OrderLine, StoreLine};
use crate::words::Words;
use protocol::{Object, Policy};
use std::alloc::{AllocError, Global};

// The words of a store are to be numbers, and are read where they are needed.
#[derive(Clone, Copy)]
pub(crate) enum Item<'a> {
    Order(OrderLine),
    Cells(Make, Words<'a>),
    Rights(Make, Words<'a>),
    Policy(Policy),
}

fn ladder(read: &[u8], write: &[u8], restrict: &[u8]) -> Option<OrderLine>
    ensures { result ≡ ladder_of read.now write.now restrict.now }
{
    Some(OrderLine::Ladder {
        read: long(read)?,
        write: long(write)?,
        restrict: long(restrict)?,
    })
}

fn order(words: Words) -> Option<OrderLine>
    ensures { result ≡ order_of (words_left words.entry) }
{
    let words = words.few()?;
    match words.as_slice() {
        [kind] if *kind == VECTOR => Some(OrderLine::Vector),
        [kind, read, write, restrict] if *kind == LADDER => ladder(read, write, restrict),
        _ => None,
    }
}

// Whether each word is a number.
pub(crate) fn are_numbers(mut words: Words) -> bool
    ensures { result ≡ is_some (numbers_of (words_left words.entry)) }
{
    words.all(|word| long(word).is_some())
}

fn numbers(heap: Global, words: Words) -> Result<Option<Vec<u32>>, AllocError>
    ensures { IfOk result (λ numbers. option_map (λ v. v.items) numbers ≡ numbers_of (words_left words.entry)) }
{
    let mut numbers = Vec::new(heap);
    for word in words {
        let Some(number) = long(word) else {
            return Ok(None);
        };
        numbers.push(number)?;
    }
    Ok(Some(numbers))
}

// The make of a store; the words behind it are left.
fn make(words: &mut Words) -> Option<Make>
    ensures { option_map (λ make. (make, words_left words.new)) result ≡ make_of (words_left words.old) }
{
    let kind = words.next()?;
    if kind == SLICE {
        Some(Make::Slice)
    } else if kind == TABLE {
        Some(Make::Table)
    } else if kind == LOG {
        let places = short(words.next()?)?;
        Some(Make::Log { places })
    } else {
        None
    }
}

pub(crate) fn store(heap: Global, make: Make, words: Words) -> Result<Option<StoreLine>, AllocError>
    ensures { IfOk result (λ store. option_map store_content store ≡ store_made make (words_left words.entry)) }
{
    let numbers = numbers(heap, words)?;
    Ok(numbers.map(|numbers| StoreLine { make, numbers }))
}

fn object(kind: &[u8], number: u16) -> Option<Object>
    ensures { result ≡ object_called kind.now number }
{
    if kind == CELL {
        Some(Object::OfCell(number))
    } else if kind == POLICY {
        Some(Object::OfPolicy(number))
    } else {
        None
    }
}

fn policy(words: Words) -> Option<Policy>
    ensures { result ≡ policy_of (words_left words.entry) }
{
    let words = words.few()?;
    let [subject, kind, number] = words.as_slice() else {
        return None;
    };
    Some(Policy {
        subject: short(subject)?,
        object: object(kind, short(number)?)?,
    })
}

// The item that the first word of a line begins.
fn item_called<'a>(kind: &[u8], mut words: Words<'a>) -> Result<Item<'a>, Problem>
    ensures { SaysItem (with_words (kind.now ∷ words_left words.entry)) result }
{
    if kind == ORDER {
        let order = order(words).ok_or(Problem::BadOrder)?;
        Ok(Item::Order(order))
    } else if kind == CELLS {
        let make = make(&mut words).ok_or(Problem::BadStore)?;
        Ok(Item::Cells(make, words))
    } else if kind == RIGHTS {
        let make = make(&mut words).ok_or(Problem::BadStore)?;
        Ok(Item::Rights(make, words))
    } else if kind == POLICY {
        let policy = policy(words).ok_or(Problem::BadPolicy)?;
        Ok(Item::Policy(policy))
    } else {
        Err(Problem::NoItem)
    }
}

// The item of a line; none where it has no word. No memory is taken.
pub(crate) fn read_item(line: &[u8]) -> Result<Option<Item>, Problem>
    ensures { SaysLine (with_words (words_of line.now)) result }
{
    let mut words = Words::new(line);
    match words.next() {
        None => Ok(None),
        Some(kind) => Ok(Some(item_called(kind, words)?)),
    }
}
