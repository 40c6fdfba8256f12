//! Laws of tables and of judging by them.
ghost use Rattle.std.specs.Prelude.{◌≡◌, ◌↔◌, ℕ};
ghost use Rattle.bidi_grammar.specs.Fits.{Fits};
ghost use Rattle.bidi_grammar.specs.Judges.{Answer, Judges};
ghost use Rattle.bidi_grammar.specs.Source.{FitsWritten, IsMade, Rules, Source, Written, of_type};
ghost use Rattle.bidi_grammar.specs.Term.{Grammar, Term, term_at};
ghost use Rattle.json.specs.Json.{Json};

/// A law for a table that was made of rules in a text.
pub fn table_says_what_is_written()
    // If each place of the table passes its test against the rules, then a value fits the term at the place of a type exactly if it fits
    // the type as it is written.
    ensures { (ρ : Rules) (g : Grammar) (o : ℕ → Source) → IsMade ρ g o → (n : ℕ) (σ : Written) → o n ≡ of_type σ → (t : Json)
        → Fits g t (term_at g n) ↔ FitsWritten ρ t σ }
{}

/// A law of judging: the answer is determined, with its reason and with the looks that are left.
pub fn judging_ends_with_one_answer()
    // With so many looks, judging a value by a term has at most one answer.
    ensures { (g : Grammar) (looks : ℕ) (t : Json) (n : ℕ) (τ : Term) (a b : Answer) → Judges g looks t n τ a → Judges g looks t n τ b → a ≡ b }
{}
