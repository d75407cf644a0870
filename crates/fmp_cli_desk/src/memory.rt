//! How much memory is free.

/// How many bytes of memory a program may take, by the line `MemAvailable` of a text with the lines of Linux's `/proc/meminfo`. None where there is no such
/// line.
pub fn available_in(text: &[u8]) -> Option<u64> {
    let text = str::from_utf8(text).ok()?;
    let line = text.lines().find(|line| line.starts_with("MemAvailable:"))?;
    let mut words = line.split_ascii_whitespace().skip(1);
    match (words.next(), words.next()) {
        (Some(number), Some("kB")) => number.parse::<u64>().ok()?.checked_mul(1024),
        _ => None,
    }
}
