//! A page while it is made.
ghost use Rattle.std.specs.Prelude.{◌≡◌, ◌-◌, ◌<◌, ◌≤◌, ◌^◌, length, IfOk, false};
ghost use Rattle.fmp_out.specs.Putting.{Adds};
ghost use Rattle.fmp_run_page.specs.Escapes.{escaped};
ghost use Rattle.fmp_run_page.specs.Parts.{part};
ghost use Rattle.fmp_law_safety.specs.Runs.{processor_of};
ghost use Rattle.fmp_setup.specs.Valid.{IsValid};
ghost use Rattle.fmp_run_view.specs.Changes.{event_text, values_text};
ghost use Rattle.fmp_run_view.specs.Moments.{at_boot, following};
ghost use Rattle.fmp_run_view.specs.Leaving.{Leaves};
ghost use Rattle.fmp_run_view.specs.Pages as spec;

use crate::changes::{Texts, put_changes, put_number_line};
use crate::player::Player;
use crate::setup::put_setup;
use fmp_codes::{Answer, Event, Proc, Record};
use fmp_out::Text;
use fmp_rules::Config;
use fmp_run_page::{put_escaped, put_head, put_tail, put_text_begin, put_text_end};
use std::alloc::{AllocError, Global};

/// Adds a text of this name.
#[tactic(auto, unfolding(fmp_run_page::specs::Parts::part))]
fn put_part(out: &mut Text, name: &[u8], text: &[u8])
    ensures { Adds (part name.now text.now) out.old out.new }
{
    put_text_begin(out, name);
    put_escaped(out, text);
    put_text_end(out);
}

/// Adds what stands before the first event, where these are the values at boot.
#[tactic(auto, unfolding(crate::specs::Pages::start_text))]
fn put_start(out: &mut Text, setup: &[u8], trace: &[u8], given: &[u8], values: &[u8])
    ensures { Adds (spec.start_text setup.now trace.now given.now values.now) out.old out.new }
{
    put_head(out);
    put_part(out, b"setup", setup);
    put_part(out, b"trace", trace);
    put_part(out, b"given", given);
    put_text_begin(out, b"changes");
    put_escaped(out, values);
}

/// Adds what stands after the last event.
#[tactic(auto, unfolding(crate::specs::Pages::end_text))]
fn put_end(out: &mut Text)
    ensures { Adds spec.end_text out.old out.new }
{
    put_text_end(out);
    put_tail(out);
}

/// Adds all values at a moment, whatever is told of the last event.
#[tactic(auto, unfolding(crate::specs::Changes::values_text))]
fn put_values(out: &mut Text, texts: &mut Texts, config: &Config, report: &Record, player: &Player)
    ensures { Adds (values_text config.now player.now) out.old out.new }
{
    put_number_line(out, player.events());
    put_changes(out, texts, config, report, true, player, player);
}

/// Adds an event with the values that it changed, where this is told of it.
#[tactic(auto, unfolding(crate::specs::Changes::event_text))]
fn put_event(
    out: &mut Text,
    texts: &mut Texts,
    config: &Config,
    report: &Record,
    before: &Player,
    after: &Player,
)
    requires { Leaves report.now before.now after.now }
    ensures { Adds (event_text config.now before.now after.now) out.old out.new }
{
    put_number_line(out, after.events());
    put_changes(out, texts, config, report, false, before, after);
}

/// Two machines that play events, one after the other, and the piece of the page that tells the last event.
#[derive(Drop)]
pub(crate) struct Showing {
    before: Player,
    after: Player,
    /// What the last event answered and did.
    report: Record,
    texts: Texts,
    raw: Text,
    piece: Text,
}

impl Showing {
    /// Both machines at boot. The piece is what stands before the first event: this trace, and what was given where it differs.
    pub(crate) fn new(
        alloc: Global,
        config: &Config,
        trace: &[u8],
        given: &[u8],
    ) -> Result<Showing, AllocError>
        ensures before { IfOk result (λ s. s.before ≡ at_boot config.now) }
        ensures after { IfOk result (λ s. s.after ≡ at_boot config.now) }
        ensures processors { IfOk result (λ s. length s.before.state.processors ≡ config.now.processors) }
        ensures valid { IfOk result (λ s. IsValid config.now) }
        ensures piece { IfOk result (λ s. s.piece.wanting ≡ false → s.piece.bytes ≡ spec.start_of config.now trace.now given.now) }
    {
        let before = Player::boot(config)?;
        let after = Player::boot(config)?;
        let report = Record::answer(Event::Tick(Proc::new(1)), None, Answer::Nothing);
        let mut texts = Texts::new(alloc);
        let mut setup = Text::new(alloc);
        put_setup(&mut setup, config);
        let mut raw = Text::new(alloc);
        put_values(&mut raw, &mut texts, config, &report, &before);
        let mut piece = Text::new(alloc);
        put_start(&mut piece, setup.so_far()?, trace, given, raw.so_far()?);
        Ok(Showing {
            before,
            after,
            report,
            texts,
            raw,
            piece,
        })
    }

    /// The piece of the page that was made last.
    pub(crate) fn piece(&self) -> Result<&[u8], AllocError>
        ensures { IfOk result (λ piece. (self.now.piece.wanting ≡ false) × (piece.now ≡ self.now.piece.bytes)) }
    {
        self.piece.so_far()
    }

    /// Tells in the piece what changed between the two machines.
    fn tell(&mut self, config: &Config)
        requires { Leaves self.old.report self.old.before self.old.after }
        ensures piece { self.new.piece.wanting ≡ false → self.new.piece.bytes ≡ escaped (event_text config.now self.old.before self.old.after) }
        ensures before { self.new.before ≡ self.old.before }
        ensures after { self.new.after ≡ self.old.after }
    {
        self.raw.clear();
        put_event(
            &mut self.raw,
            &mut self.texts,
            config,
            &self.report,
            &self.before,
            &self.after,
        );
        self.piece.clear();
        match self.raw.so_far() {
            Ok(raw) => put_escaped(&mut self.piece, raw),
            Err(fault) => self.piece.note(Err(fault)),
        }
    }

    /// Plays an event on both, which the piece tells then.
    pub(crate) fn play(&mut self, config: &Config, event: Event)
        requires same { self.old.after ≡ self.old.before }
        requires on { (processor_of event).number ≤ length self.old.before.state.processors }
        requires room { self.old.before.events < 2 ^ 32 - 1 }
        ensures before { self.new.before ≡ following self.old.before event }
        ensures after { self.new.after ≡ following self.old.before event }
        ensures processors { length self.new.before.state.processors ≡ length self.old.before.state.processors }
        ensures piece { self.new.piece.wanting ≡ false → self.new.piece.bytes ≡ escaped (event_text config.now self.old.before (following self.old.before event)) }
    {
        self.after.play(event, &mut self.report);
        self.tell(config);
        self.before.play(event, &mut self.report);
    }

    /// Makes the piece what stands after the last event.
    pub(crate) fn end(&mut self)
        ensures piece { self.new.piece.wanting ≡ false → self.new.piece.bytes ≡ spec.end_text }
    {
        self.piece.clear();
        put_end(&mut self.piece);
    }
}
