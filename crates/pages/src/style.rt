//! The start of a page, with its style sheet.

/// The title follows, and then `STYLE`.
pub const HEAD: &str = "<!DOCTYPE html>
<html lang=\"en\"><head><meta charset=\"utf-8\">
<meta name=\"viewport\" content=\"width=device-width, initial-scale=1\">
";

/// Most colours can be told apart by people who can't tell red from green.
pub const STYLE: &str = "<style>\
:root{--back:#fff;--text:#1d2733;--soft:#5b6875;--line:#d5dce3;--panel:#f5f7f9;\
--sold:#0072b2;--granted:#0072b2;--denied:#e69f00;\
--s1:#3d3d3d;--s2:#c3cad1;--s3:#9fb3c4;--s4:#e8c400;--s5:#8ccbf2;--s6:#4aa3df;--s7:#cc79a7;--s8:#0072b2;--s9:#d55e00;\
--p1:#0072b2;--p2:#e69f00;--p3:#009e73;--p4:#cc79a7;--p5:#56b4e9;--p6:#d55e00;--p7:#8a7d00;--p8:#5b6875}\
@media(prefers-color-scheme:dark){:root{--back:#141a21;--text:#e4e9ee;--soft:#9aa7b4;--line:#36424e;--panel:#1c242d;\
--sold:#56b4e9;--granted:#56b4e9;--denied:#e69f00;\
--s1:#000;--s2:#46525e;--s3:#6d8296;--s4:#f0e442;--s5:#2f6f9c;--s6:#3b93cf;--s8:#56b4e9;\
--p1:#56b4e9;--p5:#9ad0f5;--p7:#f0e442;--p8:#9aa7b4}}\
*{box-sizing:border-box}\
body{margin:0;background:var(--back);color:var(--text);font:16px/1.5 system-ui,-apple-system,'Segoe UI',Roboto,\
sans-serif}\
main{max-width:68rem;margin:0 auto;padding:1.5rem 1rem 4rem}\
h1{font-size:1.9rem;line-height:1.2;margin:.2rem 0 .4rem}\
h2{font-size:1.3rem;margin:2.6rem 0 .6rem;border-top:1px solid var(--line);padding-top:1.2rem}\
h3{font-size:1rem;margin:1.6rem 0 .4rem}\
p{margin:.4rem 0}.audited{color:var(--soft);margin:0}.note{color:var(--soft);font-size:.9rem}\
.figures{display:grid;list-style:none;padding:0;grid-template-columns:repeat(auto-fit,minmax(11rem,1fr));gap:.8rem;\
margin:1.4rem 0}\
.figures li{background:var(--panel);border:1px solid var(--line);border-radius:.5rem;padding:.7rem .9rem}\
.figures span{color:var(--soft);font-size:.85rem}\
.figures b{display:block;font-size:1.25rem;font-weight:600;font-variant-numeric:tabular-nums;white-space:nowrap}\
.wide{overflow-x:auto;margin:.8rem 0}.rows{max-height:30rem;overflow:auto}.side{display:flex;flex-wrap:wrap;\
gap:0 3.5rem}\
svg{display:block;width:100%;min-width:36rem;height:auto}\
svg text{fill:var(--text);font-size:14px}svg .soft{fill:var(--soft)}\
svg .axis{stroke:var(--line);stroke-width:1;fill:none}\
table{border-collapse:collapse;font-variant-numeric:tabular-nums;min-width:20rem}\
th,td{padding:.25rem .8rem .25rem 0;text-align:right;border-bottom:1px solid var(--line);white-space:nowrap}\
thead th{color:var(--soft);font-weight:500;font-size:.85rem;vertical-align:bottom}\
tbody th{font-weight:500}.words{text-align:left;white-space:normal}\
.legend{display:flex;flex-wrap:wrap;gap:.2rem 1.1rem;padding:0;margin:.4rem 0;list-style:none;font-size:.9rem}\
.legend i{display:inline-block;width:.9rem;overflow:hidden;line-height:.9rem;height:.9rem;border-radius:.15rem;\
margin-right:.35rem;vertical-align:-.1rem}\
.sold{fill:var(--sold)}.granted{fill:var(--granted);background:var(--granted)}.denied{fill:var(--denied);\
background:var(--denied)}\
.s1{stroke:var(--s1);background:var(--s1)}.s2{stroke:var(--s2);background:var(--s2)}.s3{stroke:var(--s3);\
background:var(--s3)}\
.s4{stroke:var(--s4);background:var(--s4)}.s5{stroke:var(--s5);background:var(--s5)}.s6{stroke:var(--s6);\
background:var(--s6)}\
.s7{stroke:var(--s7);background:var(--s7)}.s8{stroke:var(--s8);background:var(--s8)}.s9{stroke:var(--s9);\
background:var(--s9)}\
.band{fill:none;stroke-width:5}.busy{stroke-width:18}\
.price{fill:none;stroke-width:2.5}\
.p1{stroke:var(--p1);background:var(--p1)}.p2{stroke:var(--p2);background:var(--p2)}.p3{stroke:var(--p3);\
background:var(--p3)}\
.p4{stroke:var(--p4);background:var(--p4)}.p5{stroke:var(--p5);background:var(--p5)}.p6{stroke:var(--p6);\
background:var(--p6)}\
.p7{stroke:var(--p7);background:var(--p7)}.p8{stroke:var(--p8);background:var(--p8)}\
@media(max-width:40rem){main{padding:1rem .7rem 3rem}h1{font-size:1.5rem}.figures b{font-size:1.2rem}th,td{\
padding-right:.55rem}}\
@media print{main{max-width:none;padding:0}h2{break-after:avoid}.wide,tr,.figures li{break-inside:avoid}\
.wide,.rows{overflow:visible;max-height:none}svg{min-width:0}*{print-color-adjust:exact;\
-webkit-print-color-adjust:exact}}</style></head><body><main>
";
