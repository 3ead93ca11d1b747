// The advance of a lent port record.
ghost use Rattle.std.specs.Prelude.{◌≡◌};
ghost use Rattle.machine.specs.Calls.{Advanced};
ghost use Rattle.lent_port.specs.Lent.{LentAdvanced};

use machine::{After, Denial, Passed, Port};

// One call advances the record at its owner's address. At a refusal it stays as it was, every place. The promise is that of
// the advance by value, so a run (machine, specs/Run.antt) may hold this call: proofs/Step.antt.
pub fn advance(p: &mut Port, n: u64) -> Result<Passed, Denial>
    ensures { LentAdvanced p.old n result p.new }
{
    let r = advances::advances::advance(*p, n);
    *p = r.port;
    r.answer
}

// The same on a record that the caller hands over: a local holds it, is lent, and is handed back. A proved program calls this one.
pub fn advance_local(p: Port, n: u64) -> After<Result<Passed, Denial>>
    ensures { Advanced p n result }
{
    let mut q = p;
    let answer = advance(&mut q, n);
    After { answer, port: q }
}
