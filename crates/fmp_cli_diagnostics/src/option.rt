//! The option by which fault lines have another form. It goes with every command, and may stand anywhere in the command line.
ghost use Rattle.std.specs.Prelude.{◌≡◌, filter, not};
ghost use Rattle.fmp_cli_diagnostics.specs.Options as spec;

/// Which form fault lines have.
#[derive(Clone, Copy)]
pub enum LineForm {
    /// That of this program: `fmpsim: machine.cfg: line 4: F3 unsupported API CRE_MTX`.
    Plain,
    /// That of compilers: `machine.cfg:4:3: error: F3 unsupported API CRE_MTX`.
    Gcc,
    /// The command line has another word there, which is to be refused.
    Other,
}

/// Whether a word of a command line is the option, with whatever value.
#[tactic(auto, unfolding(crate::specs::Options::is_option))]
fn is_option(word: &str) -> bool
    ensures { result ≡ spec.is_option word.now }
{
    let word = word.as_bytes();
    word == b"--diagnostics".as_slice() || word.starts_with(b"--diagnostics=")
}

/// The form that a word asks for, or that of the words before it where it asks for none.
#[tactic(auto, unfolding(crate::specs::Options::form_after))]
fn form_after(form: LineForm, word: &str) -> LineForm
    ensures { result ≡ spec.form_after form word.now }
{
    if word == "--diagnostics=gcc" {
        LineForm::Gcc
    } else if word == "--diagnostics=plain" {
        LineForm::Plain
    } else if is_option(word) {
        LineForm::Other
    } else {
        form
    }
}

/// Which form fault lines have by the words of a command line: the one that the last of them asks for, and else that of this program.
pub fn line_form(words: &[String]) -> LineForm
    ensures { result ≡ spec.form_from spec.plain words.now }
{
    let mut form = LineForm::Plain;
    for word in words {
        form = form_after(form, word.as_str());
    }
    form
}

/// The words of a command line but for those that say which form fault lines have, in their order.
pub fn without_option(words: &mut Vec<String>)
    ensures { words.new.items ≡ filter (λ w. not (spec.is_option w.bytes.items)) words.old.items }
{
    words.retain(|word| !is_option(word.as_str()));
}
