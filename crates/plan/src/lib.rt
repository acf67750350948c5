// The operation Plan: levels, umbrellas and stems of the plan drawn of a sheet's part.
// The crates tree and levels hold the part's tree and the values of its edges; counts.rt counts the umbrellas and stems of the plan drawn.
// The definitions that the contracts cite are in specs/; Answer.antt says what the operation answers.
#![tactic(auto)]

ghost use Rattle.std.specs.Prelude.{◌≡◌, ℕ};
ghost use Rattle.polygon.specs.Tree.{Tree};
ghost use Rattle.umbrella.specs.Best.{best, plan_of};
ghost use Rattle.keys.specs.Keys.{edges_of};
ghost use Rattle.levels.specs.Kept.{Filled};
ghost use Rattle.plan.specs.Counts.{totals_of};
ghost use Rattle.plan.specs.Answer.{planned_of, planned};

use crate::counts::count;
use codec::Refusal;
use keys::DIAGONALS;
use levels::Tables;
use sheet::part::Part;
use sheet::reader::read_sheet;
use umbrella::roles::Role;

pub mod counts;

// Levels, umbrellas and stems.
#[derive(Drop)]
pub struct Totals {
    pub levels: u16,
    pub umbrellas: u16,
    pub stems: u16,
}

// The counts of a part whose tables are filled.
pub fn counts_of(tables: &Tables) -> Totals
    requires { (n : ℕ) × (t : Tree) × Filled n t tables.now.tree tables.now.depths tables.now.root }
    ensures { (n : ℕ) (t : Tree) → Filled n t tables.now.tree tables.now.depths tables.now.root
        → result ≡ totals_of (best t) }
{
    let s = tables.values(tables.root.e);
    let t = count(tables, tables.root, Role::Hung, 0);
    Totals {
        levels: s.ud,
        umbrellas: t.umbrellas,
        stems: t.stems,
    }
}

// The counts of a part, by the keys of its diagonals.
fn counts_by(part: &Part, keys: &[u32]) -> Totals
    requires { edges_of keys.now ≡ part.now.ds }
    ensures { result ≡ totals_of (plan_of part.now) }
{
    let mut tables = Tables::new();
    tables.fill(keys, part.head().n);
    counts_of(&tables)
}

// The counts of a part in hand.
pub fn plan_part(part: &Part) -> Totals
    ensures { result ≡ totals_of (plan_of part.now) }
{
    let m = part.head().n - 3;
    let mut keys = [0u32; DIAGONALS];
    counts_by(part, part.keys(&mut keys[..m]))
}

// Plan.
pub fn plan(sheet: &[u8]) -> Result<Totals, Refusal>
    ensures { planned_of result ≡ planned sheet.now }
{
    let mut bends = [0u32; DIAGONALS];
    let mut keys = [0u32; DIAGONALS];
    let part = read_sheet(sheet, &mut bends, &mut keys)?;
    let n = part.head().n;
    Ok(counts_by(&part, &keys[..n - 3]))
}
