ghost use Rattle.std.specs.Prelude.{◌≡◌, ◌<◌, ◌++◌, ◌∷◌, List, ℕ, IfSome, MatchOption};
ghost use Rattle.rl_ids.specs.Objects.{Lacks};

/// What stands before the first of an ASCII mark in a text, and what after it: `None` exactly where the
/// text has no such mark.
#[tactic(auto, using(crate::proofs::Cuts::cut_found, crate::proofs::Cuts::cut_every))]
pub(crate) fn cut_at(text: &str, mark: char) -> Option<(&str, &str)>
    requires { mark < 128 }
    ensures found { IfSome result (λ p. text.now ≡ p.0.now ++ mark ∷ p.1.now) }
    ensures every { (front back : List ℕ) → Lacks mark front → text.now ≡ front ++ mark ∷ back → MatchOption result ⊥ (λ p. (p.0.now ≡ front) × (p.1.now ≡ back)) }
{
    text.split_once(mark)
}
