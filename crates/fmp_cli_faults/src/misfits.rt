//! What is wrong with a request, and what is taken where it says nothing.
ghost use Rattle.std.specs.Prelude.{◌≡◌, is_none, not};
ghost use Rattle.fmp_cli_faults.specs.Misfits as spec;

use fmp_cli::{ExploreRequest, Seeds, SmpRequest};
use fmp_out::Text;
use std::alloc::Global;

/// How many ticks and lines an order may have where the request says nothing of them.
pub fn bounds_lines(alloc: Global, request: &ExploreRequest<'_>) -> Text {
    let mut text = Text::new(alloc);
    if !request.says_ticks {
        text.put(b"fmpsim: --ticks any, since no number is given\n");
    }
    if !request.says_turns {
        text.put(b"fmpsim: --turns 1000000, since no number is given\n");
    }
    text
}

/// What is wrong with a request for the runs of seeds.
#[derive(Clone, Copy)]
pub enum SeedMisfit {
    /// The word after `--seeds` is none of those for it, or it stands beside `--seed`.
    Seeds,
    /// A question is asked, and no seeds are given.
    Question,
    /// So is one of the options for the runs of seeds.
    Option(&'static str),
}

impl SeedMisfit {
    /// That of a request, if there is one.
    pub fn of_request(request: &SmpRequest<'_>) -> Option<SeedMisfit>
        ensures { is_none result ≡ spec.fits request.now }
    {
        match request.seeds {
            Seeds::Range(_, _) if request.seed.is_none() => None,
            Seeds::Unasked if request.find.is_some() => Some(SeedMisfit::Question),
            Seeds::Unasked => SeedMisfit::option_of(request),
            Seeds::Range(_, _) | Seeds::Other => Some(SeedMisfit::Seeds),
        }
    }

    /// That of a request without seeds which has an option for them.
    fn option_of(request: &SmpRequest<'_>) -> Option<SeedMisfit>
        ensures { is_none result ≡ not (spec.has_seed_option request.now) }
    {
        if request.late {
            Some(SeedMisfit::Option("--late"))
        } else if request.stalls {
            Some(SeedMisfit::Option("--stalls"))
        } else if request.seconds.is_some() {
            Some(SeedMisfit::Option("--seconds"))
        } else {
            None
        }
    }

    /// The line that reports it.
    pub fn line(self, alloc: Global) -> Text {
        let option = match self {
            SeedMisfit::Seeds => "--seeds",
            SeedMisfit::Question => "--find",
            SeedMisfit::Option(option) => option,
        };
        let mut text = Text::new(alloc);
        text.put(b"fmpsim: ");
        text.put(option.as_bytes());
        text.put(match self {
            SeedMisfit::Seeds => {
                b": expected two numbers as in 0..999, the second not below the first, and no --seed\n".as_slice()
            }
            _ => b": expected --seeds too, as in --seeds 0..999\n".as_slice(),
        });
        text
    }
}
