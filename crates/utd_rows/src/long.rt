// Scripts that are written short: `<<COUNT TEXT>>` is the text so many times, in which `#` is the number of the time, from 0, and `#+1` the next
// one; `<<NUMBER>>` is the byte of that number.
use std::alloc::{AllocError, Global};

/// Adds the text, with the number and the next one in their places.
fn push_numbered(
    alloc: Global,
    script: &mut Vec<u8>,
    text: &str,
    number: usize,
) -> Result<(), AllocError> {
    let next = number.saturating_add(1);
    for (index, piece) in text.split("#").enumerate() {
        if index == 0 {
            script.extend_from_slice(piece.as_bytes())?;
        } else if let Some(rest) = piece.strip_prefix("+1") {
            script.extend_from_slice(format!(in alloc; "{next}{rest}")?.as_bytes())?;
        } else {
            script.extend_from_slice(format!(in alloc; "{number}{piece}")?.as_bytes())?;
        }
    }
    Ok(())
}

/// Adds what `COUNT TEXT` or `NUMBER` stands for.
fn push_short(alloc: Global, script: &mut Vec<u8>, short: &str) -> Result<(), AllocError> {
    if let Some((count, text)) = short.split_once(" ") {
        for number in 0..count.parse::<usize>().unwrap_or(0) {
            push_numbered(alloc, script, text, number)?;
        }
    } else {
        script.push(short.parse::<u8>().unwrap_or(0))?;
    }
    Ok(())
}

/// The bytes of the whole script.
pub(crate) fn whole(alloc: Global, short: &str) -> Result<Vec<u8>, AllocError> {
    let mut script = Vec::new(alloc);
    for part in short.split("<<") {
        match part.split_once(">>") {
            Some((given, rest)) => {
                push_short(alloc, &mut script, given)?;
                script.extend_from_slice(rest.as_bytes())?;
            }
            None => script.extend_from_slice(part.as_bytes())?,
        }
    }
    Ok(script)
}
