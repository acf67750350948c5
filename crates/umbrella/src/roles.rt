// How the plan drawn goes on from a triangle to the two pieces beyond its other edges. specs/Roles.antt has the same in definitions.
ghost use Rattle.std.specs.Prelude.{◌≡◌};
ghost use Rattle.umbrella.specs.Roles.{from_right, left_step, right_step, goes_left, stem_step, step_at, levels_under};

// A piece is hung, with an umbrella of its own; or it lies on the rim below or above the apex of an umbrella; or the umbrella's stem has entered it, and is built from the left or from the right.
#[derive(Clone, Copy, Debug, PartialEq, Eq)]
pub enum Role {
    Hung,
    LeftRim,
    RightRim,
    FromLeft,
    FromRight,
}

// The roles of the left and of the right piece, and whether their columns are crossed.
#[derive(Clone, Copy, Debug, PartialEq, Eq)]
pub struct Step {
    pub left: Role,
    pub right: Role,
    pub crossed: bool,
}

// "If s < i, build from the right": the rim below the apex, and a stem that enters across it.
pub fn from_right(p: Role) -> bool
    ensures { result ≡ from_right p }
{
    matches!(p, Role::LeftRim | Role::FromRight)
}

// On the rim below the apex: the piece hung on the rim edge, or the one that the stem enters.
fn left_step(d: u16, ud_r: u16) -> Step
    ensures { result ≡ left_step d ud_r }
{
    if ud_r <= d {
        return Step {
            left: Role::LeftRim,
            right: Role::Hung,
            crossed: false,
        };
    }
    Step {
        left: Role::LeftRim,
        right: Role::FromRight,
        crossed: true,
    }
}

// On the rim above the apex.
fn right_step(d: u16, ud_l: u16) -> Step
    ensures { result ≡ right_step d ud_l }
{
    if ud_l <= d {
        return Step {
            left: Role::Hung,
            right: Role::RightRim,
            crossed: false,
        };
    }
    Step {
        left: Role::FromLeft,
        right: Role::RightRim,
        crossed: true,
    }
}

// Whether the stem goes on across (p,x). "E acts as L if (p,x) is a side, else as R"; built from the right "as R if (x,q) is a side, else as L".
fn goes_left(right: bool, d: u16, ud_l: u16, ud_r: u16, handle_l: u16) -> bool
    ensures { result ≡ goes_left right d ud_l ud_r handle_l }
{
    match (ud_l, ud_r) {
        (0, 0) => !right,
        (0, _) => ud_r <= d,
        (_, 0) => ud_l > d,
        _ => ud_r <= d && handle_l <= d,
    }
}

// The stem goes on across one edge, the other piece is hung.
fn stem_step(p: Role, right: bool, left: bool) -> Step
    ensures { result ≡ stem_step p right left }
{
    if left {
        return Step {
            left: p,
            right: Role::Hung,
            crossed: !right,
        };
    }
    Step {
        left: Role::Hung,
        right: p,
        crossed: right,
    }
}

// From a triangle by the role of its piece: `ud_l`, `ud_r` are the levels of the left and right piece, `handle_l` those of a stem through the left one.
pub fn step_at(p: Role, d: u16, ud_l: u16, ud_r: u16, handle_l: u16) -> Step
    ensures { result ≡ step_at p d ud_l ud_r handle_l }
{
    match p {
        Role::Hung => Step {
            left: Role::LeftRim,
            right: Role::RightRim,
            crossed: false,
        },
        Role::LeftRim => left_step(d, ud_r),
        Role::RightRim => right_step(d, ud_l),
        Role::FromLeft => stem_step(p, false, goes_left(false, d, ud_l, ud_r, handle_l)),
        Role::FromRight => stem_step(p, true, goes_left(true, d, ud_l, ud_r, handle_l)),
    }
}

// The levels under the umbrella: those under an own one, `own`, if the piece is hung.
pub fn levels_under(p: Role, d: u16, own: u16) -> u16
    ensures { result ≡ levels_under p d own }
{
    match p {
        Role::Hung => own,
        _ => d,
    }
}
