//! What the fields of statements are called.

use fmp_codes::ObjectKind;
use fmp_config_statements::{Item, StatementName};

/// What the identifier of what a statement names is called.
fn name_word(name: StatementName) -> &'static [u8] {
    match name {
        StatementName::Create(ObjectKind::Task) => b"tskid",
        StatementName::Create(ObjectKind::Semaphore) => b"semid",
        StatementName::Create(ObjectKind::Eventflag) => b"flgid",
        StatementName::Create(ObjectKind::DataQueue) => b"dtqid",
        StatementName::Create(ObjectKind::Pool) => b"mpfid",
        StatementName::Create(ObjectKind::Cyclic) => b"cycid",
        StatementName::Create(ObjectKind::Alarm) => b"almid",
        StatementName::Create(ObjectKind::SpinLock) => b"spnid",
        _ => b"id",
    }
}

/// What the attribute of what a statement creates is called.
pub(crate) fn attribute_word(name: StatementName) -> &'static [u8] {
    match name {
        StatementName::Create(ObjectKind::Task) => b"tskatr",
        StatementName::Create(ObjectKind::Semaphore) => b"sematr",
        StatementName::Create(ObjectKind::Eventflag) => b"flgatr",
        StatementName::Create(ObjectKind::DataQueue) => b"dtqatr",
        StatementName::Create(ObjectKind::Pool) => b"mpfatr",
        StatementName::Create(ObjectKind::Cyclic) => b"cycatr",
        StatementName::Create(ObjectKind::Alarm) => b"almatr",
        StatementName::Create(ObjectKind::SpinLock) => b"spnatr",
        _ => b"attribute",
    }
}

/// What the function of what a statement creates is called.
fn function_word(name: StatementName) -> &'static [u8] {
    match name {
        StatementName::Create(ObjectKind::Task) => b"task",
        StatementName::Create(ObjectKind::Cyclic) => b"cychdr",
        StatementName::Create(ObjectKind::Alarm) => b"almhdr",
        _ => b"function",
    }
}

/// What the first number of a statement is called.
pub(crate) fn first_word(name: StatementName) -> &'static [u8] {
    match name {
        StatementName::Timer => b"processor",
        StatementName::Limits => b"wupcnt",
        StatementName::DefClass => b"initial",
        StatementName::Create(ObjectKind::Task) => b"itskpri",
        StatementName::Create(ObjectKind::Semaphore) => b"isemcnt",
        StatementName::Create(ObjectKind::Eventflag) => b"iflgptn",
        StatementName::Create(ObjectKind::DataQueue) => b"dtqcnt",
        StatementName::Create(ObjectKind::Pool) => b"blkcnt",
        StatementName::Create(ObjectKind::Cyclic) => b"cyctim",
        _ => b"number",
    }
}

/// What the second number of a statement is called.
pub(crate) fn second_word(name: StatementName) -> &'static [u8] {
    match name {
        StatementName::Limits => b"pri",
        StatementName::Create(ObjectKind::Semaphore) => b"maxsem",
        StatementName::Create(ObjectKind::Cyclic) => b"cycphs",
        _ => b"number",
    }
}

/// The word for an item of a statement.
pub fn word_of(name: StatementName, item: Item) -> &'static [u8] {
    match item {
        Item::Name => name_word(name),
        Item::Function => function_word(name),
        Item::First => first_word(name),
        Item::Second => second_word(name),
        Item::Attribute => attribute_word(name),
        Item::Member => b"processor",
        Item::Text => b"\"..\"",
    }
}

/// The field of a task without effect that has so many before it.
fn task_field(index: usize) -> &'static [u8] {
    if index == 0 {
        b"exinf"
    } else if index == 1 {
        b"stksz"
    } else {
        b"stk"
    }
}

/// The field of a pool without effect that has so many before it.
fn pool_field(index: usize) -> &'static [u8] {
    if index == 0 {
        b"blksz"
    } else if index == 1 {
        b"mpf"
    } else {
        b"mpfmb"
    }
}

/// The field of a statement without effect that has so many before it.
pub(crate) fn free_field(name: StatementName, index: usize) -> &'static [u8] {
    match name {
        StatementName::Create(ObjectKind::Task) => task_field(index),
        StatementName::Create(ObjectKind::Pool) => pool_field(index),
        StatementName::Create(ObjectKind::DataQueue) => b"dtqmb",
        _ => b"exinf",
    }
}
