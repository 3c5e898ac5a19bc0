ghost use Rattle.std.specs.Prelude.{◌≡◌};
ghost use Rattle.alg_binders.specs.Procedures as spec;

/// A procedure that a script calls by its name alone.
#[derive(Clone, Copy, Debug)]
pub enum Procedure {
    NormNum,
    Ring,
    Ring1,
    RingNf,
    Abel,
    Abel1,
    AbelNf,
    Group,
    Positivity,
    FieldSimp,
}

/// The procedure with this name; none where there is none, or it isn't built yet.
pub fn procedure_named(name: &str) -> Option<Procedure>
    ensures { result ≡ spec.procedure_named name.now }
{
    if name == "norm_num" {
        Some(Procedure::NormNum)
    } else if name == "ring" {
        Some(Procedure::Ring)
    } else if name == "ring1" {
        Some(Procedure::Ring1)
    } else if name == "ring_nf" {
        Some(Procedure::RingNf)
    } else if name == "abel" {
        Some(Procedure::Abel)
    } else if name == "abel1" {
        Some(Procedure::Abel1)
    } else if name == "abel_nf" {
        Some(Procedure::AbelNf)
    } else if name == "group" {
        Some(Procedure::Group)
    } else if name == "positivity" {
        Some(Procedure::Positivity)
    } else if name == "field_simp" {
        Some(Procedure::FieldSimp)
    } else {
        // noncomm_ring, ring_exp and group_exp aren't built yet
        None
    }
}
