//! Searches for right orders that have all lines before a goal that have to be taken.
ghost use Rattle.std.specs.Prelude.{◌≡◌, ◌≤◌, ◌<◌, ◌^◌, [], length, IfOk};
ghost use Rattle.fmp_search.specs.Answers.{Says};
ghost use Rattle.fmp_search_lines.specs.Goals.{EndsMusts, SaysGoal};
ghost use Rattle.fmp_search_lines.specs.Held.{held};
ghost use Rattle.fmp_search_lines.specs.Lasts.{last_at, must_at};

use crate::player::Player;
use crate::taken::{Taken, must_of};
use crate::taker::Taker;
use fmp_search::{Answer, Quiet, Space, explore};
use std::alloc::{AllocError, Global};

/// So many of the lines before a goal that from there on none has to be taken, and the last of them has to be.
fn last_must(musts: &[bool], goal: u32) -> u32
    ensures { EndsMusts (must_at musts.now) goal result }
{
    let mut end = goal;
    while end > 0 && !must_of(musts, end - 1) {
        end -= 1;
    }
    end
}

/// One who has taken no line, and whose goal is given.
fn taker_of<'a, P: Player + Drop>(
    alloc: Global,
    player: &P,
    lasts: &'a [u32],
    musts: &'a [bool],
    goal: u32,
) -> Result<Taker<'a, P>, AllocError>
    requires { length lasts.now < 2 ^ 32 }
    ensures { IfOk result
        (λ w. held w.lasts.now w.musts.now w.count w.goal 0 [] (P.begins w.player) ≡
        held lasts.entry.now musts.entry.now (length lasts.entry.now) goal 0 [] (P.begins player.now)) }
{
    Ok(Taker {
        lasts,
        musts,
        count: lasts.len() as u32,
        goal,
        taken: Taken::none(),
        reached: 0,
        player: player.another()?,
        alloc,
    })
}

/// What `explore` gives, by these two, and the first of them, which makes the steps. It is of any space, since in a function of takers, which borrow the
/// lines, the check of these borrows takes minutes.
fn explored<W: Space + Drop>(
    alloc: Global,
    mut walker: W,
    mut base: W,
    turns: u32,
    most: u32,
) -> Result<(Answer, W), AllocError>
    requires origin { W.origin base ≡ W.origin walker }
    requires turns { turns < 2 ^ 31 }
    ensures { IfOk result (λ r. Says W.after W.wanted (W.origin walker) turns most r.0) }
{
    let (answer, _extent, _met) = explore(
        alloc,
        &mut walker,
        &mut base,
        &mut Quiet,
        turns,
        most,
        0,
    )?;
    Ok((answer, walker))
}

/// What is known of the right orders that have all lines before a goal that have to be taken, and the greatest goal that was reached on the way, which may
/// be too small. There is room for so many places.
pub(crate) fn search_goal<P: Player + Drop>(
    alloc: Global,
    player: &P,
    lasts: &[u32],
    musts: &[bool],
    goal: u32,
    most: u32,
) -> Result<(Answer, u32), AllocError>
    requires { length lasts.now ≤ 1000000 }
    ensures { IfOk result
        (λ r. SaysGoal P.plays (last_at lasts.now) (length lasts.now) (must_at musts.now) (P.begins player.now) goal most r.0) }
{
    let end = last_must(musts, goal);
    let walker = taker_of(alloc, player, lasts, musts, end)?;
    let base = taker_of(alloc, player, lasts, musts, end)?;
    let (answer, walker) = explored(alloc, walker, base, lasts.len() as u32 + 1, most)?;
    Ok((answer, walker.reached))
}
