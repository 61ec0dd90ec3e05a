//! The laws of tokens, each as the contract of a function that does nothing.
ghost use Rattle.std.specs.Prelude.{◌≡◌, ℕ, ◌≤◌, List, ◌++◌, length};
ghost use Rattle.sq_token.specs.declared.fault.LexFault.{LexFault as Fault};
ghost use Rattle.sq_token.specs.declared.token.Token.{Token as Lexeme};
ghost use Rattle.sq_token.specs.declared.token.TokenKind.{TokenKind as Meaning};
ghost use Rattle.sq_token.specs.Spelling.{Spells, IsToken};
ghost use Rattle.sq_token.specs.Reading.{Tokens};
ghost use Rattle.sq_token.specs.Fault.{FirstFault};

use crate::{LexFault, Symbol, Token, TokenKind};

/// A text has at most one list of tokens and at most one first fault, and never both.
pub fn one_reading()
    ensures list { (text : List ℕ) (a b : List Lexeme) → Tokens text a → Tokens text b → a ≡ b }
    ensures fault { (text : List ℕ) (a b : Fault) → FirstFault text a → FirstFault text b → a ≡ b }
    ensures either { (text : List ℕ) (list : List Lexeme) (fault : Fault) → Tokens text list → ¬ (FirstFault text fault) }
{}

/// A token is the longest at its place: no longer front of what stands there spells a token.
pub fn longest_token()
    ensures { (slice rest longer after : List ℕ) (kind other : Meaning) → IsToken slice kind rest → slice ++ rest ≡ longer ++ after → Spells longer other → length longer ≤ length slice }
{}

fn is_send_and_sync<T: Send + Sync>() {}

// Each type of data may be handed to another thread, and be shared.
fn data_crosses_threads() {
    is_send_and_sync::<LexFault>();
    is_send_and_sync::<Symbol>();
    is_send_and_sync::<Token>();
    is_send_and_sync::<TokenKind>();
}
