//! Whether the trace is coloured.
ghost use Rattle.std.specs.Prelude.{◌≡◌, is_none};
ghost use Rattle.fmp_cli_perform.specs.Performed.{refuses_colour};
ghost use Rattle.fmp_run_texts.specs.declared.status.Status.TheVariants as status;

use fmp_cli::Colour;
use fmp_cli_desk::Desk;
use fmp_run_events::Status;

/// Whether the trace is coloured. It is not known by a word that says nothing of it.
pub fn is_coloured<D: Desk>(desk: &D, colour: Colour) -> Option<bool>
    ensures { is_none result ≡ refuses_colour colour }
{
    match colour {
        Colour::Auto => Some(desk.is_output_terminal() && !desk.refuses_colours()),
        Colour::Always => Some(true),
        Colour::Never => Some(false),
        Colour::Other => None,
    }
}

/// Reports that the word after `--color` is none of those for it, and how that ends the program.
pub fn uncoloured<D: Desk>(desk: &D) -> Status
    ensures { result ≡ status.Usage }
{
    desk.note(b"fmpsim: --color: expected auto, always or never\n");
    Status::Usage
}
