//! What holds of words, as the contract of a call that does nothing.

ghost use Rattle.std.specs.Prelude.{◌≡◌, ◌↔◌, ◌&&◌, ℕ, List, IsTrue, not, bytes_eq, codes};
ghost use Rattle.cub_base.specs.Name.{is_reserved};
ghost use Rattle.cub_lexer.specs.Lexeme.{word_kind};
ghost use Rattle.cub_lexer.specs.declared.token.TokenKind.TheVariants.{Name};

/// The words that are no names are the reserved ones that a declaration refuses, and the underscore alone.
pub fn reserved_words_are_no_names()
    ensures { (w : List ℕ) → (word_kind w ≡ Name) ↔ IsTrue (not (is_reserved w) && not (bytes_eq w (codes "_"))) }
{}
