//! Parts, one behind the other. The number of a variant stands first among its fields.

ghost use Rattle.std.specs.Prelude.{◌≡◌, ◌&&◌, ◌++◌, OnOk};
ghost use Rattle.qz_record.specs.Fields.{IsFit};

use crate::part::Part;
use qz_text::NoMemory;

#[tactic(auto, using(crate::proofs::Fitting::both_written))]
pub(crate) fn write_two<A: Part, B: Part>(
    first: &A,
    second: &B,
    out: &mut Vec<u8>,
) -> Result<(), NoMemory>
    ensures appends { OnOk result (out.new.items ≡ out.old.items ++ (A.bytes first.now
        ++ B.bytes second.now)) }
    ensures fits { OnOk result (IsFit (A.bytes first.now ++ B.bytes second.now)
        (A.field.fits first.now && B.field.fits second.now)) }
{
    first.write_to(out)?;
    second.write_to(out)
}

#[tactic(auto, using(crate::proofs::Fitting::both_written))]
pub(crate) fn write_three<A: Part, B: Part, C: Part>(
    first: &A,
    second: &B,
    third: &C,
    out: &mut Vec<u8>,
) -> Result<(), NoMemory>
    ensures appends { OnOk result (out.new.items ≡ out.old.items ++ (A.bytes first.now
        ++ B.bytes second.now ++ C.bytes third.now)) }
    ensures fits { OnOk result (IsFit (A.bytes first.now ++ B.bytes second.now
        ++ C.bytes third.now)
        (A.field.fits first.now && B.field.fits second.now && C.field.fits third.now)) }
{
    write_two(first, second, out)?;
    third.write_to(out)
}

#[tactic(auto, using(crate::proofs::Fitting::both_written))]
pub(crate) fn write_four<A: Part, B: Part, C: Part, D: Part>(
    first: &A,
    second: &B,
    third: &C,
    fourth: &D,
    out: &mut Vec<u8>,
) -> Result<(), NoMemory>
    ensures appends { OnOk result (out.new.items ≡ out.old.items ++ (A.bytes first.now
        ++ B.bytes second.now ++ C.bytes third.now ++ D.bytes fourth.now)) }
    ensures fits { OnOk result (IsFit (A.bytes first.now ++ B.bytes second.now
        ++ C.bytes third.now ++ D.bytes fourth.now)
        (A.field.fits first.now && B.field.fits second.now && C.field.fits third.now
        && D.field.fits fourth.now)) }
{
    write_three(first, second, third, out)?;
    fourth.write_to(out)
}

#[tactic(auto, using(crate::proofs::Fitting::both_written))]
pub(crate) fn write_five<A: Part, B: Part, C: Part, D: Part, E: Part>(
    first: &A,
    second: &B,
    third: &C,
    fourth: &D,
    fifth: &E,
    out: &mut Vec<u8>,
) -> Result<(), NoMemory>
    ensures appends { OnOk result (out.new.items ≡ out.old.items ++ (A.bytes first.now
        ++ B.bytes second.now ++ C.bytes third.now ++ D.bytes fourth.now ++ E.bytes fifth.now)) }
    ensures fits { OnOk result (IsFit (A.bytes first.now ++ B.bytes second.now
        ++ C.bytes third.now ++ D.bytes fourth.now ++ E.bytes fifth.now)
        (A.field.fits first.now && B.field.fits second.now && C.field.fits third.now
        && D.field.fits fourth.now && E.field.fits fifth.now)) }
{
    write_four(first, second, third, fourth, out)?;
    fifth.write_to(out)
}

#[tactic(auto, using(crate::proofs::Fitting::both_written))]
pub(crate) fn write_six<A: Part, B: Part, C: Part, D: Part, E: Part, F: Part>(
    first: &A,
    second: &B,
    third: &C,
    fourth: &D,
    fifth: &E,
    sixth: &F,
    out: &mut Vec<u8>,
) -> Result<(), NoMemory>
    ensures appends { OnOk result (out.new.items ≡ out.old.items ++ (A.bytes first.now
        ++ B.bytes second.now ++ C.bytes third.now ++ D.bytes fourth.now ++ E.bytes fifth.now
        ++ F.bytes sixth.now)) }
    ensures fits { OnOk result (IsFit (A.bytes first.now ++ B.bytes second.now
        ++ C.bytes third.now ++ D.bytes fourth.now ++ E.bytes fifth.now ++ F.bytes sixth.now)
        (A.field.fits first.now && B.field.fits second.now && C.field.fits third.now
        && D.field.fits fourth.now && E.field.fits fifth.now && F.field.fits sixth.now)) }
{
    write_five(first, second, third, fourth, fifth, out)?;
    sixth.write_to(out)
}

#[tactic(auto, using(crate::proofs::Fitting::both_written))]
pub(crate) fn write_seven<A: Part, B: Part, C: Part, D: Part, E: Part, F: Part, G: Part>(
    first: &A,
    second: &B,
    third: &C,
    fourth: &D,
    fifth: &E,
    sixth: &F,
    seventh: &G,
    out: &mut Vec<u8>,
) -> Result<(), NoMemory>
    ensures appends { OnOk result (out.new.items ≡ out.old.items ++ (A.bytes first.now
        ++ B.bytes second.now ++ C.bytes third.now ++ D.bytes fourth.now ++ E.bytes fifth.now
        ++ F.bytes sixth.now ++ G.bytes seventh.now)) }
    ensures fits { OnOk result (IsFit (A.bytes first.now ++ B.bytes second.now
        ++ C.bytes third.now ++ D.bytes fourth.now ++ E.bytes fifth.now ++ F.bytes sixth.now
        ++ G.bytes seventh.now)
        (A.field.fits first.now && B.field.fits second.now && C.field.fits third.now
        && D.field.fits fourth.now && E.field.fits fifth.now && F.field.fits sixth.now
        && G.field.fits seventh.now)) }
{
    write_six(first, second, third, fourth, fifth, sixth, out)?;
    seventh.write_to(out)
}

#[tactic(auto, using(crate::proofs::Fitting::both_written))]
pub(crate) fn write_eight<A: Part, B: Part, C: Part, D: Part, E: Part, F: Part, G: Part, H: Part>(
    first: &A,
    second: &B,
    third: &C,
    fourth: &D,
    fifth: &E,
    sixth: &F,
    seventh: &G,
    eighth: &H,
    out: &mut Vec<u8>,
) -> Result<(), NoMemory>
    ensures appends { OnOk result (out.new.items ≡ out.old.items ++ (A.bytes first.now
        ++ B.bytes second.now ++ C.bytes third.now ++ D.bytes fourth.now ++ E.bytes fifth.now
        ++ F.bytes sixth.now ++ G.bytes seventh.now ++ H.bytes eighth.now)) }
    ensures fits { OnOk result (IsFit (A.bytes first.now ++ B.bytes second.now
        ++ C.bytes third.now ++ D.bytes fourth.now ++ E.bytes fifth.now ++ F.bytes sixth.now
        ++ G.bytes seventh.now ++ H.bytes eighth.now)
        (A.field.fits first.now && B.field.fits second.now && C.field.fits third.now
        && D.field.fits fourth.now && E.field.fits fifth.now && F.field.fits sixth.now
        && G.field.fits seventh.now && H.field.fits eighth.now)) }
{
    write_seven(first, second, third, fourth, fifth, sixth, seventh, out)?;
    eighth.write_to(out)
}

#[tactic(auto, using(crate::proofs::Fitting::both_written))]
pub(crate) fn write_nine<
    A: Part,
    B: Part,
    C: Part,
    D: Part,
    E: Part,
    F: Part,
    G: Part,
    H: Part,
    I: Part,
>(
    first: &A,
    second: &B,
    third: &C,
    fourth: &D,
    fifth: &E,
    sixth: &F,
    seventh: &G,
    eighth: &H,
    ninth: &I,
    out: &mut Vec<u8>,
) -> Result<(), NoMemory>
    ensures appends { OnOk result (out.new.items ≡ out.old.items ++ (A.bytes first.now
        ++ B.bytes second.now ++ C.bytes third.now ++ D.bytes fourth.now ++ E.bytes fifth.now
        ++ F.bytes sixth.now ++ G.bytes seventh.now ++ H.bytes eighth.now ++ I.bytes ninth.now)) }
    ensures fits { OnOk result (IsFit (A.bytes first.now ++ B.bytes second.now
        ++ C.bytes third.now ++ D.bytes fourth.now ++ E.bytes fifth.now ++ F.bytes sixth.now
        ++ G.bytes seventh.now ++ H.bytes eighth.now ++ I.bytes ninth.now)
        (A.field.fits first.now && B.field.fits second.now && C.field.fits third.now
        && D.field.fits fourth.now && E.field.fits fifth.now && F.field.fits sixth.now
        && G.field.fits seventh.now && H.field.fits eighth.now && I.field.fits ninth.now)) }
{
    write_eight(
        first, second, third, fourth, fifth, sixth, seventh, eighth, out,
    )?;
    ninth.write_to(out)
}
