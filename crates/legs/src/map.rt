// The legs of a region: counted, found by link, added at the end and removed.
ghost use Rattle.std.specs.Prelude.{◌≡◌, [], ◌∷◌, ◌++◌, ◌<◌, length};
ghost use Rattle.rules.specs.Base.{without};
ghost use Rattle.rules.specs.Legs.{on_link};
ghost use Rattle.lib_laws.specs.Shift.{erase};
ghost use Rattle.lib_laws.specs.Scan.{scan};
ghost use Rattle.legs_entry.specs.View.{FitLegs, view_leg, view_legs, leg_count};

use legs_entry::at::link_at;
use legs_entry::entry::put_leg;
use legs_entry::layout::{LEG_CAP, LEG_COUNT, LEG_WIDTH};
use legs_entry::leg::Leg;
use lib_region::{count, remove_chunk};
use node_addr::LinkNo;

pub fn leg_count(s: &[u8]) -> usize
    requires { FitLegs s.now }
    ensures value { result ≡ leg_count s.now }
    ensures value_2 { result ≡ length (view_legs s.now) }
{
    count(s, LEG_COUNT)
}

// The place of the leg on a link.
pub fn find_leg(s: &[u8], n: LinkNo) -> Option<usize>
    requires { FitLegs s.now }
    ensures { result ≡ scan (on_link n.0) 0 (view_legs s.now) }
{
    let end = leg_count(s);
    (0..end).find(|i| n == link_at(s, *i))
}

// A leg on a new link, whose number is above all others.
pub fn push_leg(s: &mut [u8], l: Leg)
    requires fit_legs { FitLegs s.old }
    requires s_bound { leg_count s.old < 32 }
    ensures fit_legs_2 { FitLegs s.new }
    ensures s_after { view_legs s.new ≡ view_legs s.old ++ (view_leg l ∷ []) }
{
    let n = s[LEG_COUNT] as usize;
    put_leg(s, n * LEG_WIDTH, l);
    s[LEG_COUNT] = (n + 1) as u8;
}

pub fn remove_leg(s: &mut [u8], i: usize)
    requires fit_legs { FitLegs s.old }
    requires i_bound { i < leg_count s.old }
    ensures fit_legs_2 { FitLegs s.new }
    ensures s_after { view_legs s.new ≡ erase i (view_legs s.old) }
{
    remove_chunk(s, LEG_WIDTH, LEG_CAP, i);
}

// The leg on a link goes, if there is one.
pub fn drop_leg(s: &mut [u8], n: LinkNo)
    requires { FitLegs s.old }
    ensures fit_legs { FitLegs s.new }
    ensures s_after { view_legs s.new ≡ without (on_link n.0) (view_legs s.old) }
{
    if let Some(i) = find_leg(s, n) {
        remove_leg(s, i);
    }
}
