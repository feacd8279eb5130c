// Laws of certificates.
ghost use Rattle.std.specs.Prelude.{◌≡◌, ℕ, ◌^◌, ◌<◌, ◌≤◌, List, [], ◌++◌, length, sum, Some, IsSome, true};
ghost use Rattle.newsvendor.specs.Item.{NewsvendorItem, IsNewsvendor};
ghost use Rattle.newsvendor.specs.declared.solve.NewsCert.{NewsCert};
ghost use Rattle.value_cert.specs.Grammar.{place_after, has_ended};
ghost use Rattle.value_cert.specs.Texts.{IsFront, IsWhole};
ghost use Rattle.value_cert.specs.NewsRules.{IsLeastLevelAt};
ghost use Rattle.value_cert.specs.Texts.{cert_lines, cert_text, lines_text, HasText};
ghost use Rattle.value_cert.specs.declared.cert.Cert.{Cert};
ghost use Rattle.value_cert.specs.declared.lots.LotCert.{LotCert};
ghost use Rattle.value_cert.specs.declared.line.CertLine.{CertLine};
ghost use Rattle.value_cert.specs.declared.place.Place.{Place};
ghost use Rattle.value_cert.specs.declared.flat_line.FlatLine.{FlatLine};
ghost use Rattle.value_cert.specs.declared.flat_line.FlatPlace.{FlatPlace};
ghost use Rattle.value_cert.specs.FlatLines as flat;

/// Lines begin a certificate exactly where there is a place behind them, and are one exactly where it has ended there.
pub fn fronts_have_places()
    ensures front { (lines : List CertLine) (at : Place) → place_after lines ≡ Some at → IsFront lines }
    ensures place { (lines : List CertLine) → IsFront lines → IsSome (place_after lines) }
    ensures ended { (lines : List CertLine) → has_ended (place_after lines) ≡ true → IsWhole lines }
    ensures whole { (lines : List CertLine) → IsWhole lines → has_ended (place_after lines) ≡ true }
{}

/// No certificate's text begins another's, and each text is of one certificate.
pub fn texts_are_apart()
    ensures certs { (a b : Cert) (more : List ℕ) → HasText a → HasText b → cert_text a ++ more ≡ cert_text b → (a ≡ b) × (more ≡ []) }
    ensures lines { (a b : List CertLine) (more : List ℕ) → IsWhole a → IsWhole b → lines_text a ++ more ≡ lines_text b → (a ≡ b) × (more ≡ []) }
{}

/// Lines are those of one certificate at most.
pub fn lines_tell_certificates()
    ensures { (a b : Cert) → HasText a → HasText b → cert_lines a ≡ cert_lines b → a ≡ b }
{}

/// A least level with its cost has a text, and so has a plan of some orders, one dual price an order and small sums.
pub fn solutions_have_texts()
    ensures levels { (item : NewsvendorItem) (c : NewsCert) → IsNewsvendor item → IsLeastLevelAt item c → c.q ≤ 2 ^ 120 → HasText (Cert.News c) }
    ensures plans { (c : LotCert) → 0 < length c.orders → length c.duals ≡ length c.orders
        → sum c.orders ≤ 2 ^ 120 → sum c.duals ≤ 2 ^ 120 → c.cost ≤ 2 ^ 120 → HasText (Cert.Lots c) }
{}

/// Lines begin a flat text, which is a head, rows with their numbers and an end, exactly where there is a place behind
/// them, and are one exactly where it has ended there.
pub fn flat_fronts_have_places()
    ensures front { (lines : List FlatLine) (at : FlatPlace) → flat.place_after lines ≡ Some at → flat.IsFront lines }
    ensures place { (lines : List FlatLine) → flat.IsFront lines → IsSome (flat.place_after lines) }
    ensures ended { (lines : List FlatLine) → flat.place_after lines ≡ Some FlatPlace.Ended → flat.IsWhole lines }
    ensures whole { (lines : List FlatLine) → flat.IsWhole lines → flat.place_after lines ≡ Some FlatPlace.Ended }
{}
