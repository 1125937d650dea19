//! Days' ends in zones, over the changes of their clocks. Tables and expected moments are Python's `zoneinfo`'s.
use crate::{next_end, time_zone};
use jiff_tz::{TimeZone, Tzif, posix};
use std::test::Fail;

/// Moments, minutes of the day, and when a day with that moment ends.
type Ends<'a> = &'a [(i64, u32, i64)];

/// Whether days end so in the zone.
fn end_so(zone: TimeZone<'_>, ends: Ends<'_>) -> bool {
    ends.iter().all(|(moment, minute, end)| next_end(zone, *minute % 1440, *moment) == Some(*end))
}

/// The same of a zone whose file has these bytes.
fn end_so_by(rt: &HostRuntime, bytes: &[u8], ends: Ends<'_>) -> Result<bool, Fail> {
    let rules = Some(Tzif::parse(rt.alloc(), None, bytes)?);
    Ok(end_so(time_zone(&rules), ends))
}

#[test]
fn in_utc(rt: HostRuntime) {
    let utc = time_zone(&None);
    assert!(rt; end_so(utc, &UTC_ENDS));
    assert!(rt; next_end(utc, 0, -1).is_none());
    assert!(rt; next_end(utc, 0, 253_400_000_001).is_none());
}

/// By a table, and by the rule that files have behind their table.
#[test]
fn in_berlin(rt: HostRuntime) -> Result<(), Fail> {
    assert!(rt; end_so_by(&rt, &BERLIN, &BERLIN_ENDS)?);
    let rule = posix::TimeZone::parse(b"CET-1CEST,M3.5.0,M10.5.0/3")?;
    assert!(rt; end_so(TimeZone::Posix(rule), &BERLIN_ENDS));
    Ok(())
}

/// The clock jumps over midnight, and is put back to the evening before.
#[test]
fn in_sao_paulo(rt: HostRuntime) -> Result<(), Fail> {
    assert!(rt; end_so_by(&rt, &SAO_PAULO, &SAO_PAULO_ENDS)?);
    Ok(())
}

#[test]
fn in_kathmandu(rt: HostRuntime) -> Result<(), Fail> {
    assert!(rt; end_so_by(&rt, &KATHMANDU, &KATHMANDU_ENDS)?);
    Ok(())
}

/// The 30th of December 2011 isn't there.
#[test]
fn in_apia(rt: HostRuntime) -> Result<(), Fail> {
    assert!(rt; end_so_by(&rt, &APIA, &APIA_ENDS)?);
    Ok(())
}

/// One minute behind midnight the clock is put back by an hour, so midnight comes twice.
#[test]
fn in_st_johns(rt: HostRuntime) -> Result<(), Fail> {
    assert!(rt; end_so_by(&rt, &ST_JOHNS, &ST_JOHNS_ENDS)?);
    Ok(())
}

const UTC_ENDS: [(i64, u32, i64); 5] = [
    (0, 0, 86_400),
    (86_399, 0, 86_400),
    (86_400, 1439, 172_740),
    (1_767_225_600, 240, 1_767_240_000),
    (253_400_000_000, 0, 253_400_054_400),
];

const BERLIN_ENDS: [(i64, u32, i64); 21] = [
    (1_774_699_200, 150, 1_774_746_000),
    (1_774_745_999, 150, 1_774_746_000),
    (1_774_746_000, 150, 1_774_830_600),
    (1_774_742_400, 120, 1_774_746_000),
    (1_774_742_400, 180, 1_774_746_000),
    (1_774_666_800, 240, 1_774_749_600),
    (1_774_749_600, 240, 1_774_836_000),
    (1_792_843_200, 150, 1_792_888_200),
    (1_792_888_200, 150, 1_792_978_200),
    (1_792_890_900, 150, 1_792_978_200),
    (1_792_891_800, 150, 1_792_978_200),
    (1_792_886_400, 180, 1_792_893_600),
    (1_792_807_200, 240, 1_792_897_200),
    (1_792_897_200, 240, 1_792_983_600),
    (1_782_856_799, 0, 1_782_856_800),
    (1_782_856_800, 0, 1_782_943_200),
    (1_798_758_000, 1439, 1_798_844_340),
    (1_806_192_000, 150, 1_806_195_600),
    (1_806_195_599, 179, 1_806_195_600),
    (1_824_940_800, 150, 1_824_942_600),
    (1_824_944_400, 150, 1_825_032_600),
];

const BERLIN: [u8; 80] = [
    84, 90, 105, 102, 0, 0, 0, 0, 0, 0, 0, 0, 0, 0, 0, 0, 0, 0, 0, 0, 0, 0, 0, 0, 0, 0, 0, 0, 0, 0,
    0, 0, 0, 0, 0, 4, 0, 0, 0, 2, 0, 0, 0, 4, 105, 200, 121, 144, 106, 221, 84, 144, 107, 168, 91,
    144, 108, 198, 113, 16, 1, 0, 1, 0, 0, 0, 14, 16, 0, 0, 0, 0, 28, 32, 0, 0, 76, 77, 84, 0,
];

const SAO_PAULO_ENDS: [(i64, u32, i64); 7] = [
    (1_318_733_999, 0, 1_318_734_000),
    (1_318_734_000, 0, 1_318_816_800),
    (1_318_680_000, 30, 1_318_734_000),
    (1_330_219_800, 0, 1_330_225_200),
    (1_330_223_400, 0, 1_330_225_200),
    (1_330_223_400, 1410, 1_330_309_800),
    (1_330_214_400, 1410, 1_330_219_800),
];

const SAO_PAULO: [u8; 80] = [
    84, 90, 105, 102, 0, 0, 0, 0, 0, 0, 0, 0, 0, 0, 0, 0, 0, 0, 0, 0, 0, 0, 0, 0, 0, 0, 0, 0, 0, 0,
    0, 0, 0, 0, 0, 4, 0, 0, 0, 2, 0, 0, 0, 4, 76, 186, 102, 176, 77, 96, 117, 160, 78, 154, 72,
    176, 79, 73, 146, 32, 1, 0, 1, 0, 255, 255, 213, 208, 0, 0, 255, 255, 227, 224, 0, 0, 76, 77,
    84, 0,
];

const KATHMANDU_ENDS: [(i64, u32, i64); 4] = [
    (1_306_952_099, 0, 1_306_952_100),
    (1_306_952_100, 0, 1_307_038_500),
    (1_306_966_500, 240, 1_307_052_900),
    (1_306_966_499, 240, 1_306_966_500),
];

const KATHMANDU: [u8; 54] = [
    84, 90, 105, 102, 0, 0, 0, 0, 0, 0, 0, 0, 0, 0, 0, 0, 0, 0, 0, 0, 0, 0, 0, 0, 0, 0, 0, 0, 0, 0,
    0, 0, 0, 0, 0, 0, 0, 0, 0, 1, 0, 0, 0, 4, 0, 0, 80, 220, 0, 0, 76, 77, 84, 0,
];

const APIA_ENDS: [(i64, u32, i64); 4] = [
    (1_325_167_199, 240, 1_325_167_200),
    (1_325_167_200, 240, 1_325_239_200),
    (1_325_239_200, 240, 1_325_253_600),
    (1_325_253_600, 240, 1_325_340_000),
];

const APIA: [u8; 97] = [
    84, 90, 105, 102, 0, 0, 0, 0, 0, 0, 0, 0, 0, 0, 0, 0, 0, 0, 0, 0, 0, 0, 0, 0, 0, 0, 0, 0, 0, 0,
    0, 0, 0, 0, 0, 5, 0, 0, 0, 4, 0, 0, 0, 4, 76, 159, 39, 176, 77, 151, 43, 224, 78, 125, 226, 96,
    78, 253, 139, 160, 79, 119, 13, 224, 1, 0, 1, 2, 3, 255, 255, 101, 80, 0, 0, 255, 255, 115, 96,
    0, 0, 0, 0, 196, 224, 0, 0, 0, 0, 182, 208, 0, 0, 76, 77, 84, 0,
];

const ST_JOHNS_ENDS: [(i64, u32, i64); 4] = [
    (1_289_096_999, 0, 1_289_097_000),
    (1_289_097_000, 0, 1_289_187_000),
    (1_289_097_060, 0, 1_289_187_000),
    (1_289_101_500, 0, 1_289_187_000),
];

const ST_JOHNS: [u8; 80] = [
    84, 90, 105, 102, 0, 0, 0, 0, 0, 0, 0, 0, 0, 0, 0, 0, 0, 0, 0, 0, 0, 0, 0, 0, 0, 0, 0, 0, 0, 0,
    0, 0, 0, 0, 0, 4, 0, 0, 0, 2, 0, 0, 0, 4, 76, 214, 15, 100, 77, 124, 58, 116, 78, 182, 13, 72,
    79, 92, 56, 88, 1, 0, 1, 0, 255, 255, 220, 216, 0, 0, 255, 255, 206, 200, 0, 0, 76, 77, 84, 0,
];
