//! What a rule is run on by itself: the request that words describe.

ghost use Rattle.std.specs.Prelude.{◌≡◌, ◌≤◌, ◌+◌, length};
ghost use Rattle.std.specs.List.{All};
ghost use Rattle.explaining.specs.Described.{at_most, context_of, counters_of, fields_of, given_by, number_or, point_in, points_from, prices_from};
ghost use Rattle.explaining.specs.Described.{price_in, put_bytes, put_further, put_point, put_price, put_shared, request_view, small, view_count};
ghost use Rattle.bpf_model.specs.Layouts.{layout_of};
ghost use Rattle.explaining.specs.Described.{with_count, with_counter, with_given, with_point, with_price, nothing_given};

use crate::names::{Name, Setting};
use bpf_model::context::{Context, Layout};
use verifier::{Counters, PointView, View};

/// The fields of the context that words name.
#[derive(Clone, Copy)]
struct Given {
    till: Option<u64>,
    point: Option<u64>,
    kind: Option<u64>,
    state: Option<u64>,
    nozzle: Option<u64>,
    product: Option<u64>,
    asked: Option<u64>,
    moment: Option<u64>,
    price: Option<u64>,
    busy_points: Option<u64>,
    unpaid: Option<u64>,
    slot: Option<u64>,
    cleared: Option<u64>,
    clears: Option<u64>,
    open_points: Option<u64>,
}

/// The numbers of a context's fields.
#[derive(Clone, Copy)]
pub struct Fields {
    pub till: u32,
    pub point: u32,
    pub kind: u32,
    pub state: u32,
    pub nozzle: u32,
    pub product: u32,
    pub asked: u64,
    pub moment: u64,
    pub price: u32,
    pub busy_points: u32,
    pub unpaid: u32,
    pub slot: u32,
    pub cleared: u64,
    pub clears: u64,
    pub open_points: u32,
}

/// What a rule is run on.
#[derive(Drop)]
pub struct Request {
    pub context: Context,
    pub view: View,
    pub counters: Counters,
}

const NO_POINT: PointView = PointView {
    state: 0,
    nozzle: 0,
    amount: 0,
};

fn nothing_given() -> Given
    ensures { result ≡ nothing_given }
{
    Given {
        till: None,
        point: None,
        kind: None,
        state: None,
        nozzle: None,
        product: None,
        asked: None,
        moment: None,
        price: None,
        busy_points: None,
        unpaid: None,
        slot: None,
        cleared: None,
        clears: None,
        open_points: None,
    }
}

fn with_given(given: Given, setting: Setting) -> Given
    ensures { result ≡ with_given given setting }
{
    let number = Some(setting.number);
    match setting.name {
        Name::Till => Given {
            till: number,
            ..given
        },
        Name::Point => Given {
            point: number,
            ..given
        },
        Name::Kind => Given {
            kind: number,
            ..given
        },
        Name::State => Given {
            state: number,
            ..given
        },
        Name::Nozzle => Given {
            nozzle: number,
            ..given
        },
        Name::Product => Given {
            product: number,
            ..given
        },
        Name::Asked => Given {
            asked: number,
            ..given
        },
        Name::Moment => Given {
            moment: number,
            ..given
        },
        Name::Price => Given {
            price: number,
            ..given
        },
        Name::BusyPoints => Given {
            busy_points: number,
            ..given
        },
        Name::Unpaid => Given {
            unpaid: number,
            ..given
        },
        Name::Slot => Given {
            slot: number,
            ..given
        },
        Name::Cleared => Given {
            cleared: number,
            ..given
        },
        Name::Clears => Given {
            clears: number,
            ..given
        },
        Name::OpenPoints => Given {
            open_points: number,
            ..given
        },
        Name::Counter(_)
        | Name::PointState(_)
        | Name::PointNozzle(_)
        | Name::PointAmount(_)
        | Name::PriceOf(_) => given,
    }
}

fn given_by(settings: &[Setting]) -> Given
    ensures { result ≡ given_by settings.now }
{
    let mut given = nothing_given();
    for setting in settings {
        given = with_given(given, *setting);
    }
    given
}

/// The number, or the largest of 32 bits.
fn small(number: u64) -> u32
    ensures { result ≡ small number }
{
    if number < 4_294_967_296 {
        number as u32
    } else {
        4_294_967_295
    }
}

fn number_or(given: Option<u64>, other: u32) -> u32
    ensures { result ≡ number_or given other }
{
    match given {
        Some(number) => small(number),
        None => other,
    }
}

fn point_in(points: &[PointView; 32], number: u32) -> PointView
    ensures { result ≡ point_in points.now number }
{
    if 1 <= number && number <= 32 {
        points[number as usize - 1]
    } else {
        NO_POINT
    }
}

fn put_point(points: &mut [PointView; 32], number: u32, point: PointView)
    ensures { points.new ≡ put_point points.old number point }
{
    if 1 <= number && number <= 32 {
        points[number as usize - 1] = point;
    }
}

fn with_point(points: &mut [PointView; 32], setting: Setting)
    ensures { points.new ≡ with_point points.old setting }
{
    let number = setting.number;
    match setting.name {
        Name::PointState(at) => {
            let old = point_in(points, at);
            put_point(
                points,
                at,
                PointView {
                    state: small(number),
                    ..old
                },
            );
        }
        Name::PointNozzle(at) => {
            let old = point_in(points, at);
            put_point(
                points,
                at,
                PointView {
                    nozzle: small(number),
                    ..old
                },
            );
        }
        Name::PointAmount(at) => {
            let old = point_in(points, at);
            put_point(
                points,
                at,
                PointView {
                    amount: number,
                    ..old
                },
            );
        }
        _ => {}
    }
}

fn points_from(before: [PointView; 32], settings: &[Setting]) -> [PointView; 32]
    ensures { result ≡ points_from before settings.now }
{
    let mut points = before;
    for setting in settings {
        with_point(&mut points, *setting);
    }
    points
}

fn price_in(prices: &[u32; 8], product: u32) -> u32
    ensures { result ≡ price_in prices.now product }
{
    if 1 <= product && product <= 8 {
        prices[product as usize - 1]
    } else {
        0
    }
}

fn put_price(prices: &mut [u32; 8], product: u32, price: u32)
    ensures { prices.new ≡ put_price prices.old product price }
{
    if 1 <= product && product <= 8 {
        prices[product as usize - 1] = price;
    }
}

fn with_price(prices: &mut [u32; 8], setting: Setting)
    ensures { prices.new ≡ with_price prices.old setting }
{
    match setting.name {
        Name::PriceOf(product) => put_price(prices, product, small(setting.number)),
        _ => {}
    }
}

fn prices_from(before: [u32; 8], settings: &[Setting]) -> [u32; 8]
    ensures { result ≡ prices_from before settings.now }
{
    let mut prices = before;
    for setting in settings {
        with_price(&mut prices, *setting);
    }
    prices
}

/// The numbers of the context's fields. What isn't named follows from what is, or is 0; till, point and kind are 1.
pub fn fields_of(settings: &[Setting]) -> Fields
    ensures { result ≡ fields_of settings.now }
{
    let given = given_by(settings);
    let kind = number_or(given.kind, 1);
    let point = number_or(given.point, if kind == 3 { 0 } else { 1 });
    let own = point_in(&points_from([NO_POINT; 32], settings), point);
    let nozzle = number_or(given.nozzle, own.nozzle);
    let product = number_or(given.product, nozzle);
    let known = price_in(&prices_from([0; 8], settings), product);
    Fields {
        till: number_or(given.till, 1),
        point,
        kind,
        state: number_or(given.state, own.state),
        nozzle,
        product,
        asked: given.asked.unwrap_or(0),
        moment: given.moment.unwrap_or(0),
        price: number_or(given.price, known),
        busy_points: number_or(given.busy_points, 0),
        unpaid: number_or(given.unpaid, 0),
        slot: number_or(given.slot, 0),
        cleared: given.cleared.unwrap_or(0),
        clears: given.clears.unwrap_or(0),
        open_points: number_or(given.open_points, 0),
    }
}

/// Writes `part` over the bytes from `at` on.
fn put_bytes(bytes: &mut [u8], at: usize, part: &[u8])
    requires { at + length part.now ≤ length bytes.old }
    ensures { bytes.new ≡ put_bytes at part.now bytes.old }
{
    bytes[at..at + part.len()].copy_from_slice(part);
}

fn put_shared(bytes: &mut [u8], fields: &Fields)
    requires { 64 ≤ length bytes.old }
    ensures { bytes.new ≡ put_shared fields.now bytes.old }
{
    put_bytes(bytes, 0, &fields.till.to_le_bytes());
    put_bytes(bytes, 4, &fields.point.to_le_bytes());
    put_bytes(bytes, 8, &fields.kind.to_le_bytes());
    put_bytes(bytes, 12, &fields.state.to_le_bytes());
    put_bytes(bytes, 16, &fields.nozzle.to_le_bytes());
    put_bytes(bytes, 20, &fields.product.to_le_bytes());
    put_bytes(bytes, 24, &fields.asked.to_le_bytes());
    put_bytes(bytes, 32, &fields.moment.to_le_bytes());
    put_bytes(bytes, 40, &fields.price.to_le_bytes());
    put_bytes(bytes, 44, &fields.busy_points.to_le_bytes());
    put_bytes(bytes, 48, &fields.unpaid.to_le_bytes());
    put_bytes(bytes, 52, &fields.slot.to_le_bytes());
    put_bytes(bytes, 56, &fields.cleared.to_le_bytes());
}

fn put_further(bytes: &mut [u8], fields: &Fields)
    requires { 80 ≤ length bytes.old }
    ensures { bytes.new ≡ put_further fields.now bytes.old }
{
    put_bytes(bytes, 64, &fields.clears.to_le_bytes());
    put_bytes(bytes, 72, &fields.open_points.to_le_bytes());
}

/// The context that has these fields.
pub fn context_of(layout: Layout, fields: &Fields) -> Context
    ensures context { result ≡ context_of layout fields.now }
    ensures layout { layout_of result ≡ layout }
{
    match layout {
        Layout::One => {
            let mut bytes = [0; 64];
            put_shared(&mut bytes, fields);
            Context::One(bytes)
        }
        Layout::Two => {
            let mut bytes = [0; 80];
            put_shared(&mut bytes, fields);
            put_further(&mut bytes, fields);
            Context::Two(bytes)
        }
    }
}

fn with_count(count: u32, setting: Setting) -> u32
    ensures { result ≡ with_count count setting }
{
    match setting.name {
        Name::PointState(at) | Name::PointNozzle(at) | Name::PointAmount(at) => count.max(at),
        _ => count,
    }
}

/// How many points there are: up to the last one that is named, or that the request is about.
fn view_count(point: u32, settings: &[Setting]) -> u32
    ensures { result ≡ view_count point settings.now }
{
    let mut count = point;
    for setting in settings {
        count = with_count(count, *setting);
    }
    count
}

/// What helpers can look up. What isn't named of the request's own point and product is as in its fields.
pub fn view_of(fields: &Fields, settings: &[Setting]) -> View
    ensures { result ≡ request_view fields.now settings.now }
{
    let mut points = [NO_POINT; 32];
    let own = PointView {
        state: fields.state,
        nozzle: fields.nozzle,
        amount: 0,
    };
    put_point(&mut points, fields.point, own);
    let mut prices = [0; 8];
    put_price(&mut prices, fields.product, fields.price);
    View {
        count: view_count(fields.point, settings),
        points: points_from(points, settings),
        prices: prices_from(prices, settings),
    }
}

fn at_most(number: u64, bound: u64) -> u64
    ensures value { result ≡ at_most number bound }
    ensures most { result ≤ bound }
{
    if number <= bound { number } else { bound }
}

fn with_counter(cells: &mut [(u64, u64); 32], setting: Setting)
    requires { All (λ c. c.0 ≤ c.1) cells.old }
    ensures cells { cells.new ≡ with_counter cells.old setting }
    ensures most { All (λ c. c.0 ≤ c.1) cells.new }
{
    if let Name::Counter(at) = setting.name
        && at < 32
    {
        cells[at as usize] = (at_most(setting.number, setting.bound), setting.bound);
    }
}

/// The counters that are named; the others are 0, with the largest bound.
pub fn counters_of(settings: &[Setting]) -> Counters
    ensures { result ≡ counters_of settings.now }
{
    let mut cells = [(0, 18_446_744_073_709_551_615); 32];
    for setting in settings {
        with_counter(&mut cells, *setting);
    }
    Counters::new(cells)
}

/// The request that these settings describe, for a rule of this layout.
pub fn request_of(layout: Layout, settings: &[Setting]) -> Request
    // proved context, view, counters: They are the context, the view and the counters with these fields | field_at_another_place
    ensures context { result.context ≡ context_of layout (fields_of settings.now) }
    ensures layout { layout_of result.context ≡ layout }
    ensures view { result.view ≡ request_view (fields_of settings.now) settings.now }
    ensures counters { result.counters ≡ counters_of settings.now }
{
    let fields = fields_of(settings);
    Request {
        context: context_of(layout, &fields),
        view: view_of(&fields, settings),
        counters: counters_of(settings),
    }
}
