//! Laws of the texts of certificates: what each says is proved, and there is nothing to run.

ghost use Rattle.std.specs.Prelude.{◌≡◌, ◌<◌, ℕ, List, length};
ghost use Rattle.wb_recheck_text.specs.declared.certificate.Certificate.{Certificate};
ghost use Rattle.wb_recheck_text.specs.Text.{certificate_text};
ghost use Rattle.wb_recheck_text.specs.Faults.{IsFirstFault, IsTextOf, IsWritable};

/// What is printed of a certificate that can be written is its text, and a text of a certificate has no fault. A text is that of one
/// certificate at most, and another has one first fault at most.
pub fn text_law()
    ensures printed { (c : Certificate) → IsWritable c → IsTextOf (certificate_text c) c }
    ensures no_fault { (text : List ℕ) (c : Certificate) (at : ℕ) → IsTextOf text c → ¬ IsFirstFault text at }
    ensures one_certificate { (text : List ℕ) (c other : Certificate) → IsTextOf text c → IsTextOf text other → c ≡ other }
    ensures one_fault { (text : List ℕ) (m n : ℕ) → IsFirstFault text m → IsFirstFault text n → m ≡ n }
{}
