//! The search for a right order of lines.
ghost use Rattle.std.specs.Prelude.{◌≡◌, ◌≤◌, ◌<◌, ◌^◌, length, IfOk};
ghost use Rattle.fmp_search_lines.specs.Answers.{FillsRoom, SaysOrders};
ghost use Rattle.fmp_search_lines.specs.Lasts.{last_at, must_at};
ghost use Rattle.fmp_search_lines.specs.Orders.{FewOpen, IsBeginning};
ghost use Rattle.fmp_search_lines.specs.Places.{lines_of};

use crate::bracket::Bracket;
use crate::crowding::first_crowded;
use crate::goals::search_goal;
use crate::player::Player;
use crate::taken::Taken;
use fmp_search::Answer;
use std::alloc::{AllocError, Global};

/// What is known of the orders of lines.
#[derive(Drop)]
pub enum Orders {
    /// These lines, one after the other, are a right order that has all that have to be taken.
    Right(Vec<u32>),
    /// No right order has this line and all before it that have to be taken. These lines, one after the other, are a right order that has all before it. Counted from 0.
    Without(u32, Vec<u32>),
    /// At this line more than 16 lines before it may still come after it, and it is the first such line. Counted from 0.
    Crowded(u32),
    /// Not known: there are more places than there is room for.
    NotKnown,
}

/// The lines that these steps take, one after the other. The error is want of memory.
fn order_of(alloc: Global, lasts: &[u32], steps: &[u8]) -> Result<Vec<u32>, AllocError>
    requires { length lasts.now < 2 ^ 32 }
    ensures { IfOk result (λ order. order.items ≡ lines_of (last_at lasts.now) (length lasts.now) steps.now) }
{
    let count = lasts.len() as u32;
    let mut taken = Taken::none();
    let mut order = Vec::new(alloc);
    for step in steps {
        let Some(line) = taken.line_of(lasts, count, *step) else {
            return Ok(order);
        };
        taken.take(*step, line);
        order.push(line)?;
    }
    Ok(order)
}

/// The first line without which there is a right order and with which there is none, where there is none that has all lines that have to be taken. The
/// guess is tried first.
fn first_without<P: Player + Drop>(
    alloc: Global,
    player: &P,
    lasts: &[u32],
    musts: &[bool],
    guess: u32,
    most: u32,
) -> Result<Orders, AllocError>
    requires many { length lasts.now ≤ 1000000 }
    requires few { FewOpen (last_at lasts.now) (length lasts.now) }
    requires none { IsBeginning P.plays (last_at lasts.now) (length lasts.now) (must_at musts.now) (length lasts.now) (P.begins player.now) → ⊥ }
    ensures says { IfOk result (SaysOrders P.plays (last_at lasts.now) (length lasts.now) (must_at musts.now) (P.begins player.now)) }
    ensures full { IfOk result (FillsRoom P.plays (last_at lasts.now) (length lasts.now) (P.begins player.now) most) }
{
    let mut bracket = Bracket::up_to(lasts.len() as u32, guess);
    let mut before = Vec::new(alloc);
    while bracket.low + 1 < bracket.high {
        let goal = bracket.goal();
        let (answer, _reached) = search_goal(alloc, player, lasts, musts, goal, most)?;
        match &answer {
            Answer::Found(steps) => {
                before = order_of(alloc, lasts, steps)?;
                bracket.rise(goal);
            }
            Answer::Never => bracket.sink(goal),
            Answer::NotWithin(_) => return Ok(Orders::NotKnown),
            Answer::Wanting(_) | Answer::Ended(_) => return Err(AllocError),
        }
    }
    Ok(Orders::Without(bracket.low, before))
}

/// Searches for an order of lines within their bounds in which each line is right and which has all lines that have to be taken. Each line has the number of
/// the last line that may come before it, and whether it has to be taken. There is room for so many places besides the first, of 24 to 32 bytes each
/// beside what they are made of, each part of which is kept once. The error is want of memory.
pub fn search_orders<P: Player + Drop>(
    alloc: Global,
    player: &P,
    lasts: &[u32],
    musts: &[bool],
    most: u32,
) -> Result<Orders, AllocError>
    requires { length lasts.now ≤ 1000000 }
    ensures says { IfOk result (SaysOrders P.plays (last_at lasts.now) (length lasts.now) (must_at musts.now) (P.begins player.now)) }
    ensures full { IfOk result (FillsRoom P.plays (last_at lasts.now) (length lasts.now) (P.begins player.now) most) }
{
    if let Some(line) = first_crowded(lasts) {
        return Ok(Orders::Crowded(line));
    }
    let count = lasts.len() as u32;
    let (answer, reached) = search_goal(alloc, player, lasts, musts, count, most)?;
    match answer {
        Answer::Found(steps) => Ok(Orders::Right(order_of(alloc, lasts, &steps)?)),
        Answer::Never => first_without(alloc, player, lasts, musts, reached, most),
        Answer::NotWithin(_) => Ok(Orders::NotKnown),
        Answer::Wanting(_) | Answer::Ended(_) => Err(AllocError),
    }
}
