//! Characters in quotes, in which a doubled quote is one quote.
ghost use Rattle.std.specs.Prelude.{◌≡◌, ◌<◌, IfOk, IfErr, MatchOption};
ghost use Rattle.sq_token.specs.Fault.{IsOpen};
ghost use Rattle.sq_token.specs.Closing.{Closes};

use crate::LexFault;
use sq_value::Str;
use std::alloc::Global;

/// Reads quoted characters up to the quote that ends them: what they say, and how many bytes they take
/// with that quote. `None` if no quote ends them.
pub(crate) fn quoted(
    alloc: Global,
    quote: char,
    text: &str,
) -> Result<Option<(Str, usize)>, LexFault>
    requires { quote < 128 }
    ensures cases { IfOk result (λ found. MatchOption found (IsOpen quote text.now) (λ x. Closes quote text.now x.0 x.1)) }
    ensures memory { IfErr result (λ fault. fault ≡ LexFault.Memory) }
{
    let mut body = String::new(alloc);
    let mut rest = text;
    while let Some((piece, after)) = rest.split_once(quote) {
        body.push_str(piece)?;
        match after.strip_prefix(quote) {
            None => {
                let said = Str::of(alloc, body.as_str())?;
                return Ok(Some((said, text.len() - after.len())));
            }
            Some(more) => {
                body.push(quote)?;
                rest = more;
            }
        }
    }
    Ok(None)
}
