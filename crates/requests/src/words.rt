//! The words.

ghost use Rattle.std.specs.Prelude.{◌≡◌, IfOk, IfSome, map, string_bytes, option_map};
ghost use Rattle.requests.specs.Requests.{request_of, meaning, IsWithinLimits};

use crate::request::Request;
use crate::tool::Tool;
use clap::error::ErrorKind;
use std::alloc::{AllocError, Global};

/// What the words after the program's name ask for. None where there is no first word, where it names no tool, or where
/// the tool's command refuses the words: it has no such option or takes no further word, an option is given twice or
/// its value is out of range, a word is missing, or help is asked for. An `Err` is want of memory alone.
pub fn request_in(alloc: Global, words: &[String]) -> Result<Option<Request<'_>>, AllocError>
    ensures exact { IfOk result (λ request.
        option_map meaning request ≡ request_of (map string_bytes words.now)) }
    ensures limits { IfOk result (λ request. IfSome request (λ asked.
        IsWithinLimits (meaning asked))) }
{
    let Some(name) = words.first() else {
        return Ok(None);
    };
    let Some(tool) = Tool::named(name.as_str()) else {
        return Ok(None);
    };
    match tool.command(alloc)?.try_get_matches_from(words) {
        Ok(matches) => Ok(tool.request(&matches)),
        Err(error) => match error.kind() {
            ErrorKind::OutOfMemory => Err(AllocError),
            _ => Ok(None),
        },
    }
}
