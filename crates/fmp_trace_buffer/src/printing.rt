//! Printing records into a buffer that has room for them.
ghost use Rattle.std.specs.Prelude.{◌≡◌, ◌+◌, ◌<◌, ◌≤◌, ◌++◌, ◌∷◌, ℕ, length, take, decimal};
ghost use Rattle.std.specs.Fmt.{signed_decimal};
ghost use Rattle.fmp_codes.specs.Codes.{name_of};
ghost use Rattle.fmp_text.specs.Fronts.{IsEcho};
ghost use Rattle.fmp_trace_buffer.specs.Filled.{HasRoom, full_bytes};
ghost use Rattle.fmp_trace.specs.Following.{after_number};
ghost use Rattle.fmp_trace_buffer.specs.Around.{after_event, before_event, processor_text};
ghost use Rattle.fmp_trace.specs.Lines.{answer_text, code_text, core_text, event_text, line_text, lost_text, most_line_bytes, release_text, releases_text, requests_from};
ghost use Rattle.fmp_trace.specs.Lines.{run_change_text, runner_text, running_text, tail_text, task_text};
ghost use Rattle.fmp_trace.specs.Values.{arguments_from, call_text, mode_text, named, object_text, value_text};

use crate::count::Count;
use crate::line_buffer::LineBuffer;
use fmp_calls::parts;
use fmp_codes::{
    Answer, ArgumentKind, Call, Code, Event, Mode, NameKind, ObjectKind, Proc, Record, Release,
    Releases, Runner, Task, Value,
};
use fmp_text::{Echo, Names};
use fmp_trace::code_piece;

impl LineBuffer {
    /// Adds the name of an object that is not short, or the number where no object has it.
    #[tactic(auto, unfolding(fmp_text::specs::Printed::named))]
    fn put_rare(&mut self, names: &Names, kind: ObjectKind, number: usize)
        requires { HasRoom self.old (named names.now kind number) }
        ensures { self.new ≡ self.old ++ named names.now kind number }
    {
        match names.name(NameKind::Object(kind), number) {
            Some(name) => self.put_text(name),
            None => self.put_number(number as u64),
        }
    }

    /// Adds the name of an object, or the number where no object has it.
    #[inline(always)]
    #[tactic(auto, unfolding(fmp_text::specs::Printed::named))]
    fn put_named(&mut self, names: &Names, kind: ObjectKind, number: usize)
        requires few { number < 128 }
        requires room { HasRoom self.old (named names.now kind number) }
        ensures { self.new ≡ self.old ++ named names.now kind number }
    {
        match names.piece(kind, number) {
            Some(piece) => self.put_piece(&piece.bytes, piece.length),
            None => self.put_rare(names, kind, number),
        }
    }

    /// Adds the name of a task, or its number where no task has it.
    #[inline(always)]
    fn put_task(&mut self, names: &Names, task: Task)
        requires { HasRoom self.old (task_text names.now task) }
        ensures { self.new ≡ self.old ++ task_text names.now task }
    {
        self.put_named(names, ObjectKind::Task, usize::from(task.number));
    }

    /// Adds an argument that stands for the caller, or for no object.
    #[tactic(auto, unfolding(fmp_text::specs::Printed::object_text))]
    fn put_no_object(&mut self, names: &Names, kind: ObjectKind, number: i32)
        requires { HasRoom self.old (object_text names.now kind number) }
        ensures { self.new ≡ self.old ++ object_text names.now kind number }
    {
        if number == 0 && kind == ObjectKind::Task {
            return self.put_piece(b"TSK_SELF        ", 8);
        }
        if number < 0 {
            return self.put_signed(i64::from(number));
        }
        self.put_rare(names, kind, number as usize);
    }

    /// Adds an argument that stands for an object.
    #[inline(always)]
    #[tactic(auto, unfolding(fmp_text::specs::Printed::object_text))]
    fn put_object(&mut self, names: &Names, kind: ObjectKind, number: i32)
        requires { HasRoom self.old (object_text names.now kind number) }
        ensures { self.new ≡ self.old ++ object_text names.now kind number }
    {
        if 0 < number && number < 128 {
            return self.put_named(names, kind, number as usize);
        }
        self.put_no_object(names, kind, number);
    }

    /// Adds how a wait for an eventflag ends.
    #[inline(always)]
    fn put_mode(&mut self, mode: Mode)
        requires { HasRoom self.old (mode_text mode) }
        ensures { self.new ≡ self.old ++ mode_text mode }
    {
        match mode {
            Mode::Andw => self.put_piece(b"TWF_ANDW        ", 8),
            Mode::Orw => self.put_piece(b"TWF_ORW         ", 7),
        }
    }

    /// Adds an argument.
    #[inline(always)]
    #[tactic(auto, unfolding(fmp_text::specs::Printed::value_text))]
    fn put_value(&mut self, names: &Names, kind: ArgumentKind, value: Value)
        requires { HasRoom self.old (value_text names.now kind value) }
        ensures { self.new ≡ self.old ++ value_text names.now kind value }
    {
        match value {
            Value::Number(number) => match kind {
                ArgumentKind::Object(kind) => self.put_object(names, kind, number),
                _ => self.put_signed(i64::from(number)),
            },
            Value::Pattern(pattern) => self.put_number(u64::from(pattern)),
            Value::Data(value) => self.put_signed(value),
            Value::Mode(mode) => self.put_mode(mode),
        }
    }

    /// Adds arguments with `, ` between them, each as its kind is printed.
    #[inline(always)]
    fn put_arguments(&mut self, names: &Names, kinds: &[ArgumentKind], values: &[Value])
        requires matched { length kinds.now ≡ length values.now }
        requires room { HasRoom self.old (arguments_from names.now 0 kinds.now values.now) }
        ensures { self.new ≡ self.old ++ arguments_from names.now 0 kinds.now values.now }
    {
        for (index, value) in values.iter().enumerate() {
            if index > 0 {
                self.put_piece(b",               ", 2);
            }
            self.put_value(names, kinds[index], *value);
        }
    }

    /// Adds a call with its arguments in parentheses, if it has any.
    #[tactic(auto, unfolding(fmp_text::specs::Printed::call_text, fmp_text::specs::Printed::after_name))]
    fn put_call(&mut self, names: &Names, call: Call)
        requires { HasRoom self.old (call_text names.now call) }
        ensures { self.new ≡ self.old ++ call_text names.now call }
    {
        let (form, values) = parts(call);
        self.put_word(form.text);
        if form.bare {
            return;
        }
        self.put_byte(b'(');
        self.put_arguments(names, form.kinds, values.as_slice());
        self.put_byte(b')');
    }

    /// Adds an event without its processor.
    #[inline(always)]
    fn put_event(&mut self, names: &Names, event: Event)
        requires { HasRoom self.old (event_text names.now event) }
        ensures { self.new ≡ self.old ++ event_text names.now event }
    {
        match event {
            Event::Call(_, call) => self.put_call(names, call),
            Event::Tick(_) => self.put_piece(b"tick            ", 4),
            Event::Ipi(_) => self.put_piece(b"ipi             ", 3),
        }
    }

    /// Adds the name of a task or a handler, or `-` where there is none.
    #[inline(always)]
    fn put_runner(&mut self, names: &Names, runner: Option<Runner>)
        requires { HasRoom self.old (runner_text names.now runner) }
        ensures { self.new ≡ self.old ++ runner_text names.now runner }
    {
        match runner {
            None => self.put_byte(b'-'),
            Some(Runner::Task(task)) => self.put_task(names, task),
            Some(Runner::Alarm(alarm)) => {
                self.put_named(names, ObjectKind::Alarm, usize::from(alarm.number))
            }
            Some(Runner::Cyclic(cyclic)) => {
                self.put_named(names, ObjectKind::Cyclic, usize::from(cyclic.number))
            }
        }
    }

    /// Adds a code and the value that it has, if any.
    #[inline(always)]
    #[tactic(auto, unfolding(fmp_trace::specs::Lines::code_text))]
    fn put_code(&mut self, code: Code, value: Option<i64>)
        requires { HasRoom self.old (code_text code value) }
        ensures { self.new ≡ self.old ++ code_text code value }
    {
        let (piece, bytes) = code_piece(code);
        self.put_piece(piece, bytes);
        if let Some(value) = value {
            self.put_byte(b':');
            self.put_signed(value);
        }
    }

    /// Adds the answer to an event.
    #[inline(always)]
    fn put_answer(&mut self, answer: Answer)
        requires { HasRoom self.old (answer_text answer) }
        ensures { self.new ≡ self.old ++ answer_text answer }
    {
        match answer {
            Answer::Done(code, value) => self.put_code(code, value),
            Answer::Wait => self.put_piece(b"wait            ", 4),
            Answer::Spin => self.put_piece(b"spin            ", 4),
            Answer::Gone => self.put_piece(b"gone            ", 4),
            Answer::Idle => self.put_piece(b"idle            ", 4),
            Answer::Held => self.put_piece(b"held            ", 4),
            Answer::Taken => self.put_piece(b"taken           ", 5),
            Answer::Nothing => self.put_piece(b"none            ", 4),
        }
    }

    /// Adds the end of a wait after a blank: the task, and the code with its value, if any.
    #[tactic(auto, unfolding(fmp_trace::specs::Lines::release_text))]
    fn put_release(&mut self, names: &Names, release: Release)
        requires { HasRoom self.old (release_text names.now release) }
        ensures { self.new ≡ self.old ++ release_text names.now release }
    {
        self.put_piece(b" rel=           ", 5);
        self.put_task(names, release.task);
        self.put_byte(b':');
        self.put_code(release.code, release.value);
    }

    /// Adds the ends of waits, each after a blank.
    #[inline(always)]
    fn put_releases(&mut self, names: &Names, releases: &Releases)
        requires { HasRoom self.old (releases_text names.now releases.now) }
        ensures { self.new ≡ self.old ++ releases_text names.now releases.now }
    {
        for index in 0..releases.len() {
            self.put_release(names, releases.get(index).unwrap());
        }
    }

    /// Adds the value that was overwritten, if any, after a blank.
    #[inline(always)]
    fn put_lost(&mut self, lost: Option<i64>)
        requires { HasRoom self.old (lost_text lost) }
        ensures { self.new ≡ self.old ++ lost_text lost }
    {
        if let Some(value) = lost {
            self.put_piece(b" lost=          ", 6);
            self.put_signed(value);
        }
    }

    /// Adds the task that runs now, or that there is none.
    #[inline(always)]
    fn put_running(&mut self, names: &Names, running: Option<Task>)
        requires { HasRoom self.old (running_text names.now running) }
        ensures { self.new ≡ self.old ++ running_text names.now running }
    {
        match running {
            None => self.put_piece(b"idle            ", 4),
            Some(task) => self.put_task(names, task),
        }
    }

    /// Adds what runs now after a blank, where that is another than before.
    #[inline(always)]
    fn put_run_change(&mut self, names: &Names, change: Option<Option<Task>>)
        requires { HasRoom self.old (run_change_text names.now change) }
        ensures { self.new ≡ self.old ++ run_change_text names.now change }
    {
        if let Some(running) = change {
            self.put_piece(b" run=           ", 5);
            self.put_running(names, running);
        }
    }

    /// Adds the processors to which a request is sent, if any, after a blank.
    #[inline(always)]
    fn put_requests(&mut self, requests: &[Proc])
        requires { HasRoom self.old (requests_from 0 requests.now) }
        ensures { self.new ≡ self.old ++ requests_from 0 requests.now }
    {
        for (index, processor) in requests.iter().enumerate() {
            if index == 0 {
                self.put_piece(b" ipi=           ", 5);
            } else {
                self.put_byte(b',');
            }
            self.put_number(u64::from(processor.number));
        }
    }

    /// Adds what stands after the answer.
    #[inline(always)]
    #[tactic(auto, unfolding(fmp_trace::specs::Lines::tail_text))]
    fn put_tail(&mut self, names: &Names, entry: &Record)
        requires { HasRoom self.old (tail_text names.now entry.now) }
        ensures { self.new ≡ self.old ++ tail_text names.now entry.now }
    {
        self.put_releases(names, &entry.releases);
        self.put_lost(entry.lost);
        self.put_run_change(names, entry.run_change);
        self.put_requests(entry.requests.as_slice());
    }

    /// Adds the processor of a line between blanks.
    #[inline(always)]
    #[tactic(auto, using(std::proofs::lemmas::Fmt::decimal_digit))]
    fn put_processor(&mut self, processor: Proc)
        requires { HasRoom self.old (processor_text processor) }
        ensures { self.new ≡ self.old ++ processor_text processor }
    {
        let mut piece = *b" P0             ";
        piece[2] = b'0' + processor.number;
        self.put_piece(&piece, 4);
    }

    /// Adds what stands between the number of a line and its event.
    #[inline(always)]
    #[tactic(auto, unfolding(crate::specs::Around::before_event))]
    fn put_before_event(&mut self, names: &Names, entry: &Record)
        requires { HasRoom self.old (before_event names.now entry.now) }
        ensures { self.new ≡ self.old ++ before_event names.now entry.now }
    {
        self.put_processor(entry.event.processor());
        self.put_runner(names, entry.runner);
        self.put_byte(b' ');
    }

    /// Adds what stands between the event of a line and its line feed.
    #[inline(always)]
    #[tactic(auto, unfolding(crate::specs::Around::after_event))]
    fn put_after_event(&mut self, names: &Names, entry: &Record)
        requires { HasRoom self.old (after_event names.now entry.now) }
        ensures { self.new ≡ self.old ++ after_event names.now entry.now }
    {
        self.put_byte(b' ');
        self.put_answer(entry.answer);
        self.put_tail(names, entry);
    }

    /// Adds what stands after the number of a line, without its line feed.
    #[inline(always)]
    #[tactic(auto, unfolding(fmp_trace::specs::Following::after_number, crate::specs::Around::before_event, crate::specs::Around::after_event))]
    fn put_after_number(&mut self, names: &Names, entry: &Record)
        requires { HasRoom self.old (after_number names.now entry.now) }
        ensures { self.new ≡ self.old ++ after_number names.now entry.now }
    {
        self.put_before_event(names, entry);
        self.put_event(names, entry.event);
        self.put_after_event(names, entry);
    }

    /// Adds the line of this count without its line feed.
    #[tactic(auto, unfolding(fmp_trace::specs::Lines::core_text, fmp_trace::specs::Lines::head_text, fmp_trace::specs::Following::after_number))]
    pub fn put_core(&mut self, names: &Names, count: &Count, entry: &Record)
        requires { HasRoom self.old (core_text names.now count.now entry.now) }
        ensures { self.new ≡ self.old ++ core_text names.now count.now entry.now }
    {
        count.put(self);
        self.put_after_number(names, entry);
    }

    /// Adds the line of this count with its line feed.
    #[tactic(auto, unfolding(fmp_trace::specs::Lines::line_text, fmp_trace::specs::Lines::core_text, fmp_trace::specs::Lines::head_text, fmp_trace::specs::Following::after_number))]
    pub fn put_line(&mut self, names: &Names, count: &Count, entry: &Record)
        requires { HasRoom self.old (line_text names.now count.now entry.now) }
        ensures { self.new ≡ self.old ++ line_text names.now count.now entry.now }
    {
        count.put(self);
        self.put_after_number(names, entry);
        self.put_byte(b'\n');
    }

    /// Adds the line of this count with its line feed, where the text of its event was read and is printed so.
    #[tactic(auto, unfolding(fmp_trace::specs::Lines::line_text, fmp_trace::specs::Lines::core_text, fmp_trace::specs::Lines::head_text, crate::specs::Around::before_event, crate::specs::Around::after_event))]
    pub fn put_echoed_line(
        &mut self,
        names: &Names,
        count: &Count,
        entry: &Record,
        text: &[u8],
        bytes: usize,
    )
        requires within { bytes ≤ length text.now }
        requires echo { take bytes text.now ≡ event_text names.now entry.now.event }
        requires room { HasRoom self.old (line_text names.now count.now entry.now) }
        ensures { self.new ≡ self.old ++ line_text names.now count.now entry.now }
    {
        count.put(self);
        self.put_before_event(names, entry);
        self.put_echo(text, bytes);
        self.put_after_event(names, entry);
        self.put_byte(b'\n');
    }

    /// Adds the line of this count with its line feed, where the text of its event may be kept as it was written.
    #[inline(always)]
    pub fn put_kept_line(&mut self, names: &Names, count: &Count, entry: &Record, echo: &Echo)
        requires echo { IsEcho echo.now (event_text names.now entry.now.event) }
        requires room { HasRoom self.old (line_text names.now count.now entry.now) }
        ensures { self.new ≡ self.old ++ line_text names.now count.now entry.now }
    {
        let bytes = echo.len();
        if bytes == 0 {
            return self.put_line(names, count, entry);
        }
        self.put_echoed_line(names, count, entry, echo.room(), bytes);
    }
}

/// How long the line of a record can be, for proofs. It does nothing.
pub fn line_is_short(names: &Names, report: &Record)
    ensures { (n : ℕ) → length (line_text names.now n report.now) ≤ most_line_bytes }
{
    names.validity();
    let _releases = report.releases.len();
    let _requests = report.requests.as_slice();
}
