//! Judging a text whose lines may have come in another order.
ghost use Rattle.std.specs.Prelude.{◌≡◌, length, IfOk};
ghost use Rattle.fmp_kernel_order.specs.Queues.{listed, no_queues};
ghost use Rattle.fmp_rules.specs.Boot.{boot};
ghost use Rattle.fmp_rules.specs.Arrivals.{numbered};
ghost use Rattle.fmp_search_lines.specs.Answers.{FillsRoom, SaysOrders};
ghost use Rattle.fmp_search_lines.specs.Lasts.{last_at, must_at};
ghost use Rattle.fmp_trace_orders.specs.Lines.{AreLinesOf, lines_of};
ghost use Rattle.fmp_trace_orders.specs.Playing.{at_boot, at_booted, plays};

use crate::lines::Lines;
use crate::player::LinePlayer;
use fmp_kernel::Kernel;
use fmp_rules::Config;
use fmp_search_lines::{Orders, search_orders};
use std::alloc::{AllocError, Global};

/// The search, by players that begin as this kernel at boot.
fn judge_from(
    alloc: Global,
    config: &Config,
    text: &[u8],
    lines: &Lines,
    start: &Kernel,
    most: u32,
) -> Result<Orders, AllocError>
    requires lines { AreLinesOf config.now.names text.now lines.now }
    requires boot { start.now ≡ boot listed (no_queues config.now) config.now }
    requires processors { length start.now.processors ≡ config.now.processors }
    ensures says { IfOk result (SaysOrders (plays numbered) (last_at lines.now.lasts.items) (length lines.now.lasts.items) (must_at lines.now.musts.items)
        (at_booted config.now (lines_of text.now))) }
    ensures full { IfOk result (FillsRoom (plays listed) (last_at lines.now.lasts.items) (length lines.now.lasts.items) (at_boot config.now (lines_of text.now)) most) }
{
    config.names().validity();
    let player = LinePlayer::new(config, text, lines, start)?;
    search_orders(alloc, &player, &lines.lasts, &lines.musts, most)
}

/// Searches for an order of a text's lines within their bounds in which each is what the machine answers there, from boot on. There is room for so many places
/// of the search besides the first: states of the kernel, with the lines that are taken. The error is want of memory.
pub fn judge_orders(
    alloc: Global,
    config: &Config,
    text: &[u8],
    lines: &Lines,
    most: u32,
) -> Result<Orders, AllocError>
    requires { AreLinesOf config.now.names text.now lines.now }
    ensures says { IfOk result (SaysOrders (plays numbered) (last_at lines.now.lasts.items) (length lines.now.lasts.items) (must_at lines.now.musts.items)
        (at_booted config.now (lines_of text.now))) }
    ensures full { IfOk result (FillsRoom (plays listed) (last_at lines.now.lasts.items) (length lines.now.lasts.items) (at_boot config.now (lines_of text.now)) most) }
{
    let start = Kernel::boot(config)?;
    judge_from(alloc, config, text, lines, &start, most)
}
