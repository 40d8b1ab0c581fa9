ghost use Rattle.std.specs.Prelude.{◌≡◌, ◌<◌, true, false, []};
ghost use Rattle.xs_share.specs.Rule.{carried};

use crate::rule::View;
use arrayvec::ArrayVec;
use atomic_table::Seat;

/// The right of one processor to take turns with the kept value. It has no bytes but the processor's number.
pub struct Pass<K> {
    pub(crate) seat: Seat<Option<K>, View<K>>,
    pub(crate) cpu: u32,
    ghost seated: { (cpu ≡ seat.me.0.number) × (cpu < 16) × (seat.me.0.works ≡ true) },
    ghost hand: { seat.me.1 ≡ carried seat.me.0.turn },
}

/// All passes of one `Shared`, with the seat that made them. Pass `c` stands at place `c`; take it out of its place, and
/// put it back before `close`.
pub struct Passes<K> {
    pub(crate) keeper: Seat<Option<K>, View<K>>,
    pub list: ArrayVec<Option<Pass<K>>, 16>,
    ghost kept: { (keeper.me.0.keeps ≡ true) × (keeper.me.0.works ≡ false) × (keeper.me.0.out ≡ keeper.me.0.made) × (keeper.me.0.ended ≡ []) × (keeper.me.1 ≡ []) },
}

impl<K> Pass<K> {
    pub(crate) fn into_seat(self) -> Seat<Option<K>, View<K>>
        ensures { result ≡ self.seat }
    {
        let Self { seat, cpu: _ } = self;
        seat
    }
}

impl<K> Drop for Pass<K> {
    fn drop(self) {
        let Self { seat: _, cpu: _ } = self;
    }
}
