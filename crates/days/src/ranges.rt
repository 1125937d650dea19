//! Proofs that numbers of an opening are in the ranges of their types. The functions do nothing, and are called for
//! their contracts.
ghost use Rattle.std.specs.Prelude.{◌<◌, ◌^◌, All, option_to_list};
ghost use Rattle.hex.specs.Hex.{IsBytes};
ghost use Rattle.days.specs.Ranges.{FileFits, OrderFits, PointFits, UnpaidFits, VersionFits};

use crate::file::OpeningFile;
use fuelling_point::{Order, Point, Transaction};
use site_core::Version;

fn bytes_in_range(bytes: &[u8])
    ensures { IsBytes bytes.now }
{}

fn order_in_range(order: Option<Order>)
    ensures { OrderFits order }
{
    match order {
        None => {}
        Some(Order::Authorise(_amount)) => {}
        Some(Order::Suspend) => {}
        Some(Order::Resume) => {}
        Some(Order::Stop) => {}
    }
}

fn place_in_range(place: Option<Transaction>)
    ensures { All UnpaidFits (option_to_list place) }
{
    if let Some(transaction) = place {
        let _holder = transaction.holder;
        let _price = transaction.price;
    }
}

fn unpaid_in_range(point: &Point)
    ensures { All UnpaidFits point.now.unpaid }
{
    let [first, second] = point.transactions();
    place_in_range(first);
    place_in_range(second);
}

fn point_in_range(point: &Point)
    ensures { PointFits point.now }
{
    let _preset = point.preset();
    let _limit = point.limit();
    order_in_range(point.snapshot().order);
    unpaid_in_range(point);
}

fn points_in_range(points: &[Point])
    ensures { All PointFits points.now }
{
    for point in points {
        point_in_range(point);
    }
}

fn version_in_range(rule: &Option<Version>)
    ensures { VersionFits rule.now }
{
    match rule {
        None => {}
        Some(version) => {
            let _mask = version.program.declared();
            bytes_in_range(version.program.bytes());
        }
    }
}

fn versions_in_range(rules: &[Option<Version>])
    ensures { All VersionFits rules.now }
{
    for rule in rules {
        version_in_range(rule);
    }
}

pub(crate) fn file_in_range(file: &OpeningFile)
    ensures { FileFits file.now }
{
    let _day = file.day;
    let _entries = file.entries;
    let _count = file.opening.points.len();
    bytes_in_range(file.digest.as_slice());
    points_in_range(&file.opening.points);
    versions_in_range(&file.opening.rules);
}
