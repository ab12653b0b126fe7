//! Laws of certificates as they are written: what each says is proved, and there is nothing to run.

ghost use Rattle.std.specs.Prelude.{◌≡◌, List};
ghost use Rattle.wb_base.specs.Grammar.{GrammarView};
ghost use Rattle.wb_recheck_theory.specs.declared.line.Line.{Line};
ghost use Rattle.wb_recheck_theory.specs.declared.entry.Entry.{Entry};
ghost use Rattle.wb_recheck_writer.specs.Order.{IsWrittenCertificate};

/// A grammar has one certificate at most as it is written.
pub fn one_certificate_law()
    ensures lines { (g : GrammarView) (lines more : List Line) (entries others : List Entry) → IsWrittenCertificate g lines entries → IsWrittenCertificate g more others → lines ≡ more }
    ensures entries { (g : GrammarView) (lines more : List Line) (entries others : List Entry) → IsWrittenCertificate g lines entries → IsWrittenCertificate g more others → entries ≡ others }
{}
