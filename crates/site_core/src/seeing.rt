//! What programs can see of a fuelling point.

ghost use Rattle.std.specs.Prelude.{◌≡◌, ◌≤◌, length};
ghost use Rattle.site_core.specs.State.{seen, seen_points};
ghost use Rattle.bpf_model.specs.declared.limits.TheConstants.{POINTS};

use fuelling_point::Point;
use verifier::PointView;

pub fn seen(point: &Point) -> PointView
    ensures { result ≡ seen point.now }
{
    PointView {
        state: point.state().number(),
        nozzle: point.nozzle(),
        amount: point.amount(),
    }
}

/// Writes nothing if both are the same, so that other cores keep their cached copies.
pub fn set_if_changed(place: &mut PointView, now: PointView)
    ensures { place.new ≡ now }
{
    if *place != now {
        *place = now;
    }
}

pub fn seen_points(points: &[Point]) -> [PointView; 32]
    requires { length points.now ≤ POINTS }
    ensures { result ≡ seen_points points.now }
{
    let mut all = [PointView {
        state: 0,
        nozzle: 0,
        amount: 0,
    }; 32];
    for (i, point) in points.iter().enumerate() {
        all[i] = seen(point);
    }
    all
}
