//! How far a long run has come, on standard error, and whether its time is over.
ghost use Rattle.std.specs.Prelude.{◌≡◌, Bool};

use crate::desk::{Desk, put_lines};
use fmp_out::Text;
use fmp_run_explore::Progress;
use fmp_run_seeds::SeedProgress;

/// From when on it is reported, in tenths of a second.
const FIRST: u64 = 10;

/// How many seconds more a run may take at least that goes on beside its answer.
const LEAST_MORE: u64 = 10;

/// What takes the line of a terminal away.
const ERASED: &[u8] = b"\r\x1b[K";

/// How it is reported.
#[derive(Clone, Copy, PartialEq, Eq)]
pub enum ProgressForm {
    Hidden,
    /// In one line of a terminal, over and over.
    InOneLine,
    /// In a line of its own each time.
    InLines,
}

impl ProgressForm {
    /// At a terminal in one line, and elsewhere in lines where they are asked for.
    pub fn at(is_terminal: bool, is_asked: bool) -> ProgressForm {
        match (is_terminal, is_asked) {
            (true, _) => ProgressForm::InOneLine,
            (false, true) => ProgressForm::InLines,
            (false, false) => ProgressForm::Hidden,
        }
    }

    /// How many tenths of a second are between two times.
    fn pause(self) -> u64 {
        match self {
            ProgressForm::InOneLine => 2,
            _ => 10,
        }
    }
}

/// One who reports it.
#[derive(Drop)]
pub struct ProgressLine<'a, D> {
    desk: &'a D,
    form: ProgressForm,
    /// When the run began, in thousandths of a second.
    begun: Option<u64>,
    /// When it is reported next, in tenths of a second from then.
    next: u64,
    is_shown: bool,
    /// After how many seconds the run is to end, if it is.
    limit: Option<u64>,
    is_over: bool,
}

impl<'a, D: Desk> ProgressLine<'a, D> {
    /// That of a run that begins, and may take so many seconds. It is reported at a terminal, and elsewhere where that is asked for.
    pub fn new(desk: &'a D, is_asked: bool, limit: Option<u64>) -> ProgressLine<'a, D> {
        ProgressLine {
            desk,
            form: ProgressForm::at(desk.is_error_terminal(), is_asked),
            begun: desk.thousandths(),
            next: FIRST,
            is_shown: false,
            limit,
            is_over: false,
        }
    }

    /// How many thousandths of a second the run takes already. Where the clock says nothing there are none.
    pub fn thousandths(&self) -> u64 {
        match (self.begun, self.desk.thousandths()) {
            (Some(begun), Some(now)) => now.saturating_sub(begun),
            _ => 0,
        }
    }

    /// How many seconds the run takes already, where it is time to report it.
    fn seconds_due(&mut self) -> Option<u64>
        ensures { self.new.is_over ≡ self.old.is_over }
    {
        if self.form == ProgressForm::Hidden {
            return None;
        }
        let past = self.thousandths();
        let tenths = past / 100;
        if tenths < self.next {
            return None;
        }
        self.next = tenths.saturating_add(self.form.pause());
        Some(past / 1000)
    }

    /// Whether the run has taken as long as it may.
    fn has_ended(&mut self) -> bool
        ensures { result ≡ self.new.is_over }
    {
        if let Some(limit) = self.limit {
            self.is_over = self.thousandths() / 1000 >= limit;
        }
        self.is_over
    }

    /// Lets the run go on for as long as it has taken, or a few seconds, but no longer than it may take.
    pub fn allow_as_much(&mut self) {
        let taken = self.thousandths() / 1000;
        let most = taken.saturating_add(taken.max(LEAST_MORE));
        self.limit = Some(self.limit.map_or(most, |limit| limit.min(most)));
    }

    /// Takes the line of a terminal away.
    fn erase(&mut self)
        ensures { self.new.is_over ≡ self.old.is_over }
    {
        if self.is_shown {
            self.desk.note(ERASED);
            self.is_shown = false;
        }
    }

    /// The beginning of what is reported.
    fn beginning(&self) -> Text {
        let mut text = Text::new(self.desk.alloc());
        text.put(match self.form {
            ProgressForm::InLines => b"fmpsim: ".as_slice(),
            _ => ERASED,
        });
        text
    }

    /// Reports how far the run is, after so many seconds.
    fn show(&mut self, mut text: Text, seconds: u64)
        ensures { self.new.is_over ≡ self.old.is_over }
    {
        text.put(b", ");
        text.put_number(seconds);
        text.put(b" s");
        if self.form == ProgressForm::InLines {
            text.put_byte(b'\n');
        } else {
            self.is_shown = true;
        }
        put_lines(self.desk, text);
    }
}

impl<'a, D: Desk> Progress for ProgressLine<'a, D> {
    ghost over = { λ line. line.is_over };

    fn is_over(&mut self) -> bool {
        self.has_ended()
    }

    fn tell(&mut self, places: usize, depth: u32) {
        let Some(seconds) = self.seconds_due() else {
            return;
        };
        let mut text = self.beginning();
        text.put_number(places as u64);
        text.put(b" places, line ");
        text.put_number(u64::from(depth));
        self.show(text, seconds);
    }

    fn end(&mut self) {
        self.erase();
    }
}

impl<'a, D: Desk> SeedProgress for ProgressLine<'a, D> {
    ghost over = { λ line. line.is_over };

    fn is_over(&mut self) -> bool {
        self.has_ended()
    }

    fn tell(&mut self, seed: u64) {
        let Some(seconds) = self.seconds_due() else {
            return;
        };
        let mut text = self.beginning();
        text.put(b"at seed ");
        text.put_number(seed);
        self.show(text, seconds);
    }

    fn end(&mut self) {
        self.erase();
    }
}
