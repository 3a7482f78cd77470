// The rows that pieces are cut with.
ghost use Rattle.std.specs.Prelude.{◌≡◌, ℕ, ◌+◌, ◌-◌, ◌<◌, ◌≤◌, length, slice_index};
ghost use Rattle.field.specs.Laws.{Codes};
ghost use Rattle.algebra.specs.Codes.{power};
ghost use Rattle.piece.specs.Pieces.{Lawful, entry};
ghost use Rattle.piece.specs.Schemes.{as_settings};

use crate::Settings;
use crate::kind::Rows;
use crate::scheme::Scheme;
use field::Field;

// The powers of a point: 1, the point, its square and so on.
fn powers<F: Field>(factors: &mut [u16], point: u16)
    requires { point < F.ops.order }
    ensures codes { Codes F.ops.order factors.new }
    ensures value { (j : ℕ) → j < length factors.old → slice_index factors.new j ≡ power F.ops point j }
{
    let mut p = 1;
    for factor in factors.iter_mut() {
        *factor = p;
        p = F::mul(p, point);
    }
}

// The inverses of a point minus the elements coded 0, 1, 2 and so on.
fn inverses<F: Field>(factors: &mut [u16], point: u16)
    requires point { point < F.ops.order }
    requires few { length factors.old ≤ 16 }
    requires places { length factors.old ≤ F.ops.order }
    ensures codes { Codes F.ops.order factors.new }
    ensures value { (j : ℕ) → j < length factors.old → slice_index factors.new j ≡ F.ops.inv (F.ops.add point (F.ops.neg j)) }
{
    for (j, factor) in factors.iter_mut().enumerate() {
        // as, where it is proved to lose nothing: try_from with unwrap says no more.
        let opposite = F::neg(j as u16);
        let difference = F::add(point, opposite);
        *factor = F::inv(difference);
    }
}

// The entries of the piece of this number, one for each place, where the settings are in range by their type.
pub fn entries_of<F: Field>(factors: &mut [u16], scheme: Scheme, number: u8)
    requires least { 1 ≤ number }
    requires most { number ≤ scheme.n }
    requires places { length factors.old ≡ scheme.m }
    ensures codes { Codes F.ops.order factors.new }
    ensures value { (j : ℕ) → j < scheme.m → slice_index factors.new j ≡ entry F.ops (as_settings scheme) number j }
{
    match scheme.rows {
        Rows::Vandermonde => powers::<F>(factors, number as u16),
        Rows::Cauchy => inverses::<F>(factors, scheme.m as u16 + number as u16 - 1),
    }
}

// The entries of the piece of this number, one for each place, of settings that are known to be in range.
pub fn entries<F: Field>(factors: &mut [u16], settings: Settings, number: u8)
    requires lawful { Lawful settings }
    requires least { 1 ≤ number }
    requires most { number ≤ settings.n }
    requires places { length factors.old ≡ settings.m }
    ensures codes { Codes F.ops.order factors.new }
    ensures value { (j : ℕ) → j < settings.m → slice_index factors.new j ≡ entry F.ops settings number j }
{
    entries_of::<F>(factors, Scheme::of(settings), number);
}
