// A part in hand, as the operations pass it on: what contracts see of it is the part itself, which is valid.
ghost use Rattle.std.specs.Prelude.{◌≡◌, map, ◌-◌, ◌≤◌, length, take};
ghost use Rattle.polygon.specs.Polygon.{Valid};
ghost use Rattle.keys.specs.Keys.{edges_of, flat_bend};
ghost use Rattle.sheet.specs.Held.{SmallKeys};
ghost use Rattle.sheet.specs.Hand.{part_of, flat_part, head_of, has_angles};

use crate::Head;
use keys::bend::{FLAT, bend, keys_in};
use std::marker::Model;

// Its head, and a table that begins with the bends of its diagonals, ascending. The table is lent, so that a part is passed on without a copy of it.
#[derive(Drop)]
pub struct Part<'t> {
    head: Head,
    bends: &'t [u32],
}

impl<'t> Model for Part<'t> {
    ghost use Rattle.polygon.specs.Polygon.{Polygon, Valid};

    ghost Value = { Polygon };

    ghost use Rattle.sheet.specs.Hand.{part_of};

    ghost view = { λ p. part_of p.head p.bends.now };

    ghost invariant = { λ p. Valid (part_of p.head p.bends.now) };
}

// Puts the bends of diagonals without angles at the front of a table.
pub fn flat_bends(keys: &[u32], bends: &mut [u32])
    requires { (length keys.now ≤ length bends.old) × SmallKeys keys.now }
    ensures { take (length keys.now) bends.new ≡ map flat_bend keys.now }
{
    for (j, &key) in keys.iter().enumerate() {
        bends[j] = bend(key, FLAT);
    }
}

impl<'t> Part<'t> {
    // The part of a head and its bends.
    pub fn new(head: Head, bends: &'t [u32]) -> Part<'t>
        requires { Valid (part_of head bends.now) }
        ensures { result ≡ part_of head bends.now }
    {
        Part { head, bends }
    }

    // The part without angles of n corners whose diagonals have these keys. Its bends lie in the table lent.
    pub fn flat(n: usize, keys: &[u32], bends: &'t mut [u32]) -> Part<'t>
        requires part { Valid (flat_part n keys.now) }
        requires room { length keys.now ≤ length bends.old }
        ensures { result ≡ flat_part n keys.now }
    {
        flat_bends(keys, bends);
        Part::new(Head { n, angled: false }, bends)
    }

    // How many corners it has, and whether it has angles.
    pub fn head(&self) -> Head
        ensures corners { result.n ≡ self.now.n }
        ensures angles { result.angled ≡ has_angles self.now.angles }
        ensures valid { Valid self.now }
    {
        self.head
    }

    // The bends of its diagonals.
    pub fn bends(&self) -> &[u32]
        ensures part { part_of (head_of self.now) result.now ≡ self.now }
        ensures all { length result.now ≡ self.now.n - 3 }
    {
        let bends = self.bends;
        &bends[..self.head.n - 3]
    }

    // The keys of its diagonals, in the table lent.
    pub fn keys<'k>(&self, keys: &'k mut [u32]) -> &'k [u32]
        requires { self.now.n - 3 ≤ length keys.old }
        ensures { edges_of result.now ≡ self.now.ds }
    {
        let m = self.head.n - 3;
        keys_in(self.bends(), &mut keys[..m]);
        &keys[..m]
    }
}
