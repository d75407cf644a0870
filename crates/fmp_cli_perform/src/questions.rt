//! Many questions about the orders of scripts: each is searched for by itself, and a line reports its answer.
ghost use Rattle.std.specs.Prelude.{◌≡◌, ◌⊎◌, [], ◌∷◌, ◌++◌, None, IfOk, IfSome, OnOk};
ghost use Rattle.fmp_cli_perform.specs.Asked as spec;
ghost use Rattle.fmp_run_texts.specs.declared.status.Status.TheVariants as status;

use crate::beside::Beside;
use crate::lists::put_out;
use fmp_cli::{ExploreRequest, FEW_TICKS, Paths};
use fmp_cli_desk::{
    Desk, Ending, FaultForm, Kept, KeptText, ProgressLine, both_opened, file_put, folder_made,
    kept, put_lines, report_beside, report_question_beside, settled, text_read, third_allowed,
    trace_put, trace_read,
};
use fmp_cli_diagnostics::{LineForm, Spot};
use fmp_cli_faults::{asked_line, question_diagnostic, row_line};
use fmp_cli_hints_question::row_context;
use fmp_cli_notes::{About, note_unmade, note_unshown};
use fmp_cli_questions::{
    Answer, Reply, Row, RowFault, RowKind, Rows, judgement_of, junit_text, plain_line, read_rows,
    tap_head, tap_line,
};
use fmp_cli_runs::{Replied, reply_to, status_of};
use fmp_config::Config;
use fmp_run_events::{MemSource, Status};
use fmp_run_explore::{Outcome, Progress};
use fmp_run_texts::{RunFault, ScriptReader, texts_from};
use fmp_search_question::{QuestionFault, ReadFault, is_lasting, read_lasting, read_question};
use fmp_text::MOST_BYTES;
use std::alloc::{AllocError, Global};

/// The texts, all read.
#[derive(Drop)]
struct Texts {
    config: Vec<u8>,
    scripts: Vec<u8>,
    questions: Vec<u8>,
}

/// What is asked of all questions.
#[derive(Clone, Copy)]
struct Asking<'a> {
    paths: Paths<'a>,
    fault_form: FaultForm,
    request: ExploreRequest<'a>,
    /// The path of their text.
    file: &'a str,
}

/// What is wrong with a question.
#[derive(Clone, Copy)]
enum Misfit {
    /// It asks what stays for ever, and there is a number of ticks.
    Ticks,
    /// Its text has this fault, at the byte of this number from 0.
    Text(QuestionFault, usize),
}

/// Reads the configuration, the scripts and the questions to their ends.
fn texts_of<D: Desk>(desk: &D, asking: &Asking<'_>) -> Result<Texts, Ending>
    ensures { IfOk result (λ t. spec.AreTexts (D.text_at desk.now asking.now.paths.config.now) (D.text_at desk.now asking.now.paths.text.now)
        (D.text_at desk.now asking.now.file.now) t.config.items t.scripts.items t.questions.items) }
{
    third_allowed(&asking.paths, asking.file)?;
    let (config, scripts) = both_opened(desk, &asking.paths)?;
    let scripts = text_read(desk.alloc(), scripts)?;
    let questions = trace_read(desk, asking.file)?;
    Ok(Texts {
        config,
        scripts,
        questions,
    })
}

/// The configuration, where it has no fault and the scripts have none.
fn config_of(alloc: Global, texts: &Texts) -> Result<Config, RunFault> {
    let mut config = MemSource::new(texts.config.as_slice());
    let mut scripts = MemSource::new(texts.scripts.as_slice());
    match texts_from(alloc, &ScriptReader, &mut config, &mut scripts) {
        Ok((config, _)) => Ok(config),
        Err(fault) => Err(fault),
    }
}

/// What is wrong with a question that was read, if something is.
fn misread<T: Drop>(read: Result<T, ReadFault>) -> Result<Option<Misfit>, AllocError> {
    match read {
        Ok(_) => Ok(None),
        Err(ReadFault::Memory) => Err(AllocError),
        Err(ReadFault::Text(fault, place)) => Ok(Some(Misfit::Text(fault, place))),
    }
}

/// What is wrong with a question, if something is.
fn misfit_of(
    alloc: Global,
    config: &Config,
    request: &ExploreRequest<'_>,
    question: &[u8],
) -> Result<Option<Misfit>, AllocError> {
    if !is_lasting(question) {
        return misread(read_question(alloc, config.names(), question));
    }
    if request.ticks.is_some() {
        return Ok(Some(Misfit::Ticks));
    }
    misread(read_lasting(alloc, config.names(), question))
}

/// At which byte of its line, from 0, a question begins. That is not known of a text that is not UTF-8.
fn column_of(text: &[u8], row: &Row) -> Option<usize> {
    let lines = str::from_utf8(text).ok()?;
    let line = lines.lines().nth(row.line().checked_sub(1)?)?;
    line.trim_ascii_end()
        .len()
        .checked_sub(row.question().len())
}

/// Reports the fault of the question of a row, which begins at this byte of the question, counted from 0.
fn report_asked<D: Desk>(
    desk: &D,
    asking: &Asking<'_>,
    texts: &Texts,
    row: &Row,
    fault: QuestionFault,
    place: usize,
) {
    let path = asking.file;
    let number = place.saturating_add(1);
    if !matches!(asking.fault_form.line, LineForm::Gcc) {
        put_lines(
            desk,
            asked_line(desk.alloc(), path, row.line(), fault, number),
        );
        return;
    }
    let spot = match column_of(texts.questions.as_slice(), row) {
        Some(column) => Spot::Column(row.line(), column.saturating_add(number)),
        None => Spot::Line(row.line()),
    };
    desk.put_line(question_diagnostic(path, spot, fault));
}

/// Reports what is wrong with a question, and how that ends the program.
fn report_misfit<D: Desk>(
    desk: &D,
    asking: &Asking<'_>,
    texts: &Texts,
    row: &Row,
    misfit: Misfit,
) -> Status
    ensures { (result ≡ status.Usage) ⊎ (result ≡ status.Faulty) }
{
    match misfit {
        Misfit::Ticks => {
            let form = asking.fault_form.line;
            let lines = row_line(desk.alloc(), form, asking.file, row.line(), FEW_TICKS);
            put_lines(desk, lines);
            Status::Usage
        }
        Misfit::Text(fault, place) => {
            report_asked(desk, asking, texts, row, fault, place);
            if let Ok(question) = str::from_utf8(row.question()) {
                let config = texts.config.as_slice();
                report_question_beside(desk, &asking.paths, config, question, fault, place);
            }
            Status::Faulty
        }
    }
}

/// Reports the fault of a row that is no question, and how that ends the program.
fn report_row<D: Desk>(desk: &D, asking: &Asking<'_>, texts: &Texts, fault: RowFault) -> Status
    ensures { result ≡ status.Faulty }
{
    let alloc = desk.alloc();
    let form = asking.fault_form.line;
    put_lines(
        desk,
        row_line(alloc, form, asking.file, fault.line, fault.words()),
    );
    if asking.paths.context.is_some() && matches!(fault.kind, RowKind::Form) {
        let line = u32::try_from(fault.line).unwrap_or(u32::MAX);
        report_beside(
            desk,
            row_context(alloc, texts.questions.as_slice(), line).ok(),
        );
    }
    Status::Faulty
}

/// What is wrong with the first question that has something wrong, and its row.
fn first_misfit<'r>(
    alloc: Global,
    config: &Config,
    asking: &Asking<'_>,
    rows: &'r Rows,
) -> Result<Option<(&'r Row, Misfit)>, AllocError> {
    for row in rows.rows.iter() {
        if let Some(misfit) = misfit_of(alloc, config, &asking.request, row.question())? {
            return Ok(Some((row, misfit)));
        }
    }
    Ok(None)
}

/// Judges all questions before the first is searched for. Reports the first fault of their text, and how that ends the program, if there is one.
fn misfits<D: Desk>(
    desk: &D,
    asking: &Asking<'_>,
    texts: &Texts,
    rows: &Rows,
) -> Result<Option<Status>, Ending>
    ensures some { IfOk result (λ found. IfSome found (λ s. (s ≡ status.Usage) ⊎ (s ≡ status.Faulty))) }
    ensures none { IfOk result (λ found. found ≡ None → rows.now.fault ≡ None) }
{
    let alloc = desk.alloc();
    let config = settled(config_of(alloc, texts), false)?;
    match first_misfit(alloc, &config, asking, rows) {
        Ok(Some((row, misfit))) => Ok(Some(report_misfit(desk, asking, texts, row, misfit))),
        Ok(None) => match rows.fault {
            Some(fault) => Ok(Some(report_row(desk, asking, texts, fault))),
            None => Ok(None),
        },
        Err(error) => Err(Ending::from(error)),
    }
}

/// Searches for what is asked of one question.
fn reply_of<D: Desk>(
    desk: &D,
    texts: &Texts,
    request: &ExploreRequest<'_>,
    progress: &mut ProgressLine<'_, D>,
) -> Result<Replied, Ending>
    ensures { IfOk result (λ reply. spec.IsAnswer texts.now.config.items texts.now.scripts.items request.now request.now.question.now reply.answer) }
{
    let run = reply_to(
        desk.alloc(),
        texts.config.as_slice(),
        texts.scripts.as_slice(),
        request,
        progress,
    );
    settled(run, false)
}

/// Writes the trace that shows a question, where one does and that is asked for.
fn put_trace<D: Desk>(
    desk: &D,
    folder: Option<&str>,
    row: &Row,
    replied: &Replied,
) -> Result<(), Ending> {
    if let (Answer::Shown(_), Some(folder)) = (replied.answer, folder) {
        let name = str::from_utf8(row.name()).unwrap_or("");
        trace_put(desk, folder, name, replied.trace.as_slice())?;
    }
    Ok(())
}

/// The answer to a question, whose trace is written where that is asked for. A question that is not begun in time is not searched for, nor one that is not
/// UTF-8, of which there is none among those that have no fault.
fn answered<'x, D: Desk>(
    desk: &D,
    asking: &Asking<'x>,
    texts: &Texts,
    row: &'x Row,
    progress: &mut ProgressLine<'_, D>,
) -> Result<(Answer, Option<Outcome>), Ending>
    ensures { IfOk result (λ found. spec.IsAnswer texts.now.config.items texts.now.scripts.items asking.now.request row.now.question found.0) }
{
    let (false, Ok(question)) = (Progress::is_over(progress), str::from_utf8(row.question())) else {
        return Ok((Answer::NotWithin(0), None));
    };
    let request = ExploreRequest {
        question,
        ..asking.request
    };
    let replied = reply_of(desk, texts, &request, progress)?;
    put_trace(desk, request.traces, row, &replied)?;
    Ok((replied.answer, replied.outcome))
}

/// Puts a thing after the others.
fn keep<T: Drop>(things: &mut Vec<T>, thing: T) -> Result<(), AllocError>
    ensures { OnOk result (things.new.items ≡ things.old.items ++ (thing ∷ [])) }
{
    things.push(thing)?;
    Ok(())
}

/// Searches for each question, and reports its answer when it is known. Of each it puts what was found of all orders, where something of it is reported at
/// the end.
fn replies_to<D: Desk>(
    desk: &D,
    asking: &Asking<'_>,
    texts: &Texts,
    rows: Vec<Row>,
    outcomes: &mut Vec<Option<Outcome>>,
    progress: &mut ProgressLine<'_, D>,
) -> Result<Vec<Reply>, Ending>
    ensures { IfOk result (λ replies. spec.AreReplies texts.now.config.items texts.now.scripts.items asking.now.request rows.items replies.items) }
{
    let alloc = desk.alloc();
    if asking.request.tap {
        put_out(desk, tap_head(alloc, rows.len())?.as_slice())?;
    }
    let mut replies = Vec::new(alloc);
    for row in rows {
        let begun = progress.thousandths();
        let (answer, outcome) = answered(desk, asking, texts, &row, progress)?;
        let thousandths = progress.thousandths().saturating_sub(begun);
        let reply = Reply {
            row,
            answer,
            thousandths,
        };
        let line = if asking.request.tap {
            tap_line(alloc, replies.len().saturating_add(1), &reply)?
        } else {
            plain_line(alloc, &reply)?
        };
        put_out(desk, line.as_slice())?;
        keep(&mut replies, reply)?;
        keep(outcomes, outcome)?;
    }
    Ok(replies)
}

/// That of the outcomes by which is told which calls no order makes: the first one that knows it, or else the first.
fn telling(outcomes: &[Option<Outcome>]) -> Option<&Outcome> {
    let mut first = None;
    for outcome in outcomes {
        if let Some(outcome) = outcome {
            if outcome.met.is_some() {
                return Some(outcome);
            }
            first = first.or(Some(outcome));
        }
    }
    first
}

/// Reports which calls of the scripts no order makes, where some question is shown by none: that is the same beside each of them.
fn report_unmade<D: Desk>(
    desk: &D,
    asking: &Asking<'_>,
    outcomes: &[Option<Outcome>],
    progress: &mut ProgressLine<'_, D>,
) {
    let about = About {
        alloc: desk.alloc(),
        asked: "questions",
    };
    if let Some(outcome) = telling(outcomes) {
        let notes = &mut Beside::new(desk);
        note_unmade(notes, about, outcome, progress, asking.request.bounds);
    }
}

/// Reports of each question that no order shows how much of it comes, after all answers: these searches are not to take the time of others.
fn report_unshown<D: Desk>(
    desk: &D,
    asking: &Asking<'_>,
    replies: &[Reply],
    outcomes: &[Option<Outcome>],
    progress: &mut ProgressLine<'_, D>,
) {
    progress.allow_as_much();
    for (reply, outcome) in replies.iter().zip(outcomes.iter()) {
        let name = str::from_utf8(reply.row.name()).unwrap_or("");
        if let Some(outcome) = outcome {
            let about = About {
                alloc: desk.alloc(),
                asked: name,
            };
            let notes = &mut Beside::new(desk);
            note_unshown(notes, about, outcome, progress, &asking.request);
        }
    }
    report_unmade(desk, asking, outcomes, progress);
}

/// Makes what is to be written beside the answers, so that no search is made for nothing.
fn make_room<D: Desk>(desk: &D, request: &ExploreRequest<'_>) -> Result<(), Ending> {
    if let Some(folder) = request.traces {
        folder_made(desk, folder)?;
    }
    if let Some(path) = request.junit {
        file_put(desk, path, b"")?;
    }
    Ok(())
}

/// Writes the report that is asked for.
fn put_report<D: Desk>(
    desk: &D,
    request: &ExploreRequest<'_>,
    replies: &[Reply],
) -> Result<(), Ending> {
    if let Some(path) = request.junit {
        let text = junit_text(desk.alloc(), replies)?;
        file_put(desk, path, text.as_slice())?;
    }
    Ok(())
}

/// Searches for each question, and reports the answers, and beside them what is known of all orders.
fn all_answered<D: Desk>(
    desk: &D,
    asking: &Asking<'_>,
    texts: &Texts,
    rows: Vec<Row>,
    progress: &mut ProgressLine<'_, D>,
) -> Result<Status, Ending>
    ensures { IfOk result (spec.IsJudged texts.now.config.items texts.now.scripts.items rows.items asking.now.request) }
{
    let mut outcomes = Vec::new(desk.alloc());
    let replies = replies_to(desk, asking, texts, rows, &mut outcomes, progress)?;
    put_report(desk, &asking.request, replies.as_slice())?;
    report_unshown(
        desk,
        asking,
        replies.as_slice(),
        outcomes.as_slice(),
        progress,
    );
    Ok(status_of(judgement_of(replies.as_slice())))
}

/// Judges all questions, makes what is to be written, and searches for each.
fn judged<D: Desk>(
    desk: &D,
    asking: &Asking<'_>,
    texts: &Texts,
    progress: &mut ProgressLine<'_, D>,
) -> Result<Status, Ending>
    ensures { IfOk result (spec.AnswersAll texts.now.config.items texts.now.scripts.items texts.now.questions.items asking.now.request) }
{
    let rows = read_rows(desk.alloc(), texts.questions.as_slice())?;
    if let Some(status) = misfits(desk, asking, texts, &rows)? {
        return Ok(status);
    }
    make_room(desk, &asking.request)?;
    all_answered(desk, asking, texts, rows.rows, progress)
}

/// Searches for each question of the text at a path, and reports the answers. All are judged before the first search, and what is to be written is
/// made then.
pub fn asked<D: Desk>(
    desk: &D,
    paths: &Paths<'_>,
    fault_form: FaultForm,
    request: &ExploreRequest<'_>,
    file: &str,
    progress: &mut ProgressLine<'_, D>,
) -> Result<Status, Ending>
    ensures { spec.EndsAsking (D.text_at desk.now paths.now.config.now) (D.text_at desk.now paths.now.text.now) (D.text_at desk.now file.now) request.now result }
{
    let asking = Asking {
        paths: *paths,
        fault_form,
        request: *request,
        file,
    };
    let texts = texts_of(desk, &asking)?;
    if texts.questions.len() > MOST_BYTES {
        return Err(Ending::LongTrace);
    }
    let run = judged(desk, &asking, &texts, progress);
    let kept_texts = Kept {
        config: texts.config,
        text: KeptText::whole(texts.scripts),
    };
    kept(run, kept_texts)
}
