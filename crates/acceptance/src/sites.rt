//! A site for tests: its configuration, the lines of a delivery at the site, their answers, and their journal.
use site_core::Config;
use std::alloc::Global;
use std::test::Fail;

/// Makes a configuration with two tills and two fuelling points. Releases are decided by slot 0, presets by slot 1, and
/// prices by slot 2. The error is that memory ran out, or that the configuration isn't valid.
pub fn station(alloc: Global) -> Result<Config, Fail> {
    let points = vec![in alloc; (0, 1), (0, 1)]?;
    let prices = [1799, 1849, 0, 0, 0, 0, 0, 0];
    let config = Config::new(2, 2, prices, points, [(0, 0); 32]);
    Ok(config.ok_or("a configuration")?)
}

/// The 14 lines of a delivery that is paid.
pub const DELIVERY: &str =
    "load 0 0 79101800000000009500000000000000\ntill 1 open 1\ndisp 1 up 1\ntill 1 release 1 8000\ndisp 1 order\n\
        disp 1 started\ndisp 1 flow 2500 1390\ndisp 1 down\ntill 1 lock 1 1\ntill 2 lock 1 1\ntill 2 clear 1 1\n\
        till 1 clear 1 1\ntill 1 clear 1 1\ntill 1 show 1\n";

/// The answers to the lines of the delivery.
pub const ANSWERS: &str =
    "1 version 1\n2 done\n3 done\n4 granted 8000 by 1\n5 order authorise 8000\n6 done\n7 done\n8 done\n9 done\n\
        10 S27\n11 S27\n12 done\n13 S28\n14 point 3 0 0 0 0 0 0\n";

/// The journal that the delivery leaves.
pub const JOURNAL: &str =
    "1 1 0 load 0 0 79101800000000009500000000000000 = version 1\n2 1 0 till 1 open 1 = done\n\
        3 1 0 disp 1 up 1 = done\n4 1 0 till 1 release 1 8000 = granted 8000 by 1 ; 0 1 8000 \
        010000000100000001000000040000000100000001000000401f0000000000000000000000000000070700000000000000000000000\
        000000000000000000000 -\n5 1 0 disp 1 order = order authorise 8000\n6 1 0 disp 1 started = done\n\
        7 1 0 disp 1 flow 2500 1390 = done\n8 1 0 disp 1 down = done\n9 1 0 till 1 lock 1 1 = done\n\
        10 1 0 till 2 lock 1 1 = S27\n11 1 0 till 2 clear 1 1 = S27\n12 1 0 till 1 clear 1 1 = done\n\
        13 1 0 till 1 clear 1 1 = S28\n14 1 0 till 1 show 1 = point 3 0 0 0 0 0 0\n";
