//! What the plain model in Python says that schedules come to. `tools/model/stored_replays.py` prints this file.

/// A schedule, and what it comes to: its chart, its races and its notes.
pub type StoredReplay = (&'static [u8], &'static [u8]);

/// Schedules of `cases/`, and one more.
pub static WORKED: [StoredReplay; 24] = [
    (
        b"instances a b\ncapacity 1\na send b ping\nb receive a\n",
        b"msc run;\ninstance a;\nout ping to b;\nendinstance;\ninstance b;\nin ping from a;\nendinstance;\nendmsc;\n",
    ),
    (
        b"instances a b\ncapacity 2\na send b x\na send b y\nb receive a\nb receive a\n",
        b"msc run;\ninstance a;\nout x to b;\nout y to b;\nendinstance;\ninstance b;\nin x from a;\nin y from a;\nendinstance;\nendmsc;\n",
    ),
    (
        b"instances a b\ncapacity 1\na send b x\na send b y\n",
        b"msc run;\ninstance a;\nout x to b;\nendinstance;\ninstance b;\nendinstance;\nendmsc;\nnote 4 full\n",
    ),
    (
        b"instances a b\ncapacity 1\nb receive a\n",
        b"msc run;\ninstance a;\nendinstance;\ninstance b;\nendinstance;\nendmsc;\nnote 3 nothing\n",
    ),
    (
        b"instances a b\ncapacity 1\n",
        b"msc run;\ninstance a;\nendinstance;\ninstance b;\nendinstance;\nendmsc;\n",
    ),
    (
        b"instances a b\ncapacity 1\na send b x\na close b\nb receive a\nb receive a\n",
        b"msc run;\ninstance a;\nout x to b;\nendinstance;\ninstance b;\nin x from a;\nendinstance;\nendmsc;\nnote 6 ended\n",
    ),
    (
        b"instances a b\ncapacity 2\na send b x\na send b y\na close b\na send b z\nb receive a\nb receive a\nb receive a\n",
        b"msc run;\ninstance a;\nout x to b;\nout y to b;\nendinstance;\ninstance b;\nin x from a;\nin y from a;\nendinstance;\nendmsc;\nnote 6 closed\nnote 9 ended\n",
    ),
    (
        b"instances a b\ncapacity 1\nb concurrent\nb send a p\nb endconcurrent\nb endconcurrent\n",
        b"msc run;\ninstance a;\nendinstance;\ninstance b;\nendinstance;\nendmsc;\nnote 4 incoregion\nnote 6 notopen\n",
    ),
    (
        b"instances a b\ncapacity 1\nb concurrent\nb concurrent\nb endconcurrent\n",
        b"msc run;\ninstance a;\nendinstance;\ninstance b;\nendinstance;\nendmsc;\nnote 4 open\n",
    ),
    (
        b"instances n1 n2 n3 n4 n5 n6 n7 n8 n9 n10 n11 n12 n13 n14 n15 n16 n17 n18 n19 n20 n21 n22 n23 n24 n25 n26 n27 n28 n29 n30 n31 n32\ncapacity 64\n",
        b"msc run;\ninstance n1;\nendinstance;\ninstance n2;\nendinstance;\ninstance n3;\nendinstance;\ninstance n4;\nendinstance;\ninstance n5;\nendinstance;\ninstance n6;\nendinstance;\ninstance n7;\nendinstance;\ninstance n8;\nendinstance;\ninstance n9;\nendinstance;\ninstance n10;\nendinstance;\ninstance n11;\nendinstance;\ninstance n12;\nendinstance;\ninstance n13;\nendinstance;\ninstance n14;\nendinstance;\ninstance n15;\nendinstance;\ninstance n16;\nendinstance;\ninstance n17;\nendinstance;\ninstance n18;\nendinstance;\ninstance n19;\nendinstance;\ninstance n20;\nendinstance;\ninstance n21;\nendinstance;\ninstance n22;\nendinstance;\ninstance n23;\nendinstance;\ninstance n24;\nendinstance;\ninstance n25;\nendinstance;\ninstance n26;\nendinstance;\ninstance n27;\nendinstance;\ninstance n28;\nendinstance;\ninstance n29;\nendinstance;\ninstance n30;\nendinstance;\ninstance n31;\nendinstance;\ninstance n32;\nendinstance;\nendmsc;\n",
    ),
    (
        b"instances a b\ncapacity 1\na send b q\nb send a p\na receive b\nb receive a\n",
        b"msc run;\ninstance a;\nout q to b;\nin p from b;\nendinstance;\ninstance b;\nout p to a;\nin q from a;\nendinstance;\nendmsc;\nrace a 1 2\nrace b 1 2\n",
    ),
    (
        b"instances a b c\ncapacity 1\na send b x\nc send b y\nb receive a\nb receive c\n",
        b"msc run;\ninstance a;\nout x to b;\nendinstance;\ninstance b;\nin x from a;\nin y from c;\nendinstance;\ninstance c;\nout y to b;\nendinstance;\nendmsc;\nrace b 1 2\n",
    ),
    (
        b"instances a b c\ncapacity 1\na send b x\nb receive a\nb send c m\nc receive b\nc send b y\nb receive c\n",
        b"msc run;\ninstance a;\nout x to b;\nendinstance;\ninstance b;\nin x from a;\nout m to c;\nin y from c;\nendinstance;\ninstance c;\nin m from b;\nout y to b;\nendinstance;\nendmsc;\n",
    ),
    (
        b"instances a b c\ncapacity 1\na send b x\na send c y\nc receive a\nc send b z\nb receive a\nb receive c\n",
        b"msc run;\ninstance a;\nout x to b;\nout y to c;\nendinstance;\ninstance b;\nin x from a;\nin z from c;\nendinstance;\ninstance c;\nin y from a;\nout z to b;\nendinstance;\nendmsc;\nrace b 1 2\n",
    ),
    (
        b"instances a b c\ncapacity 1\nb send c m\nc receive b\nc send b y\na send b x\nb receive c\nb receive a\n",
        b"msc run;\ninstance a;\nout x to b;\nendinstance;\ninstance b;\nout m to c;\nin y from c;\nin x from a;\nendinstance;\ninstance c;\nin m from b;\nout y to b;\nendinstance;\nendmsc;\nrace b 1 3\nrace b 2 3\n",
    ),
    (
        b"instances a b c\ncapacity 2\na send b x\na send b z\nc send b y\nb any\nb any\nb any\n",
        b"msc run;\ninstance a;\nout x to b;\nout z to b;\nendinstance;\ninstance b;\nin x from a;\nin y from c;\nin z from a;\nendinstance;\ninstance c;\nout y to b;\nendinstance;\nendmsc;\nrace b 1 2\nrace b 2 3\n",
    ),
    (
        b"instances a b c\ncapacity 1\na send b x\nc send b y\nb concurrent\nb receive a\nb receive c\nb endconcurrent\n",
        b"msc run;\ninstance a;\nout x to b;\nendinstance;\ninstance b;\nconcurrent;\nin x from a;\nin y from c;\nendconcurrent;\nendinstance;\ninstance c;\nout y to b;\nendinstance;\nendmsc;\n",
    ),
    (
        b"instances a b c\ncapacity 2\na send b x\na send b z\nc send b y\nb concurrent\nb any\nb any\nb endconcurrent\nb any\n",
        b"msc run;\ninstance a;\nout x to b;\nout z to b;\nendinstance;\ninstance b;\nconcurrent;\nin x from a;\nin y from c;\nendconcurrent;\nin z from a;\nendinstance;\ninstance c;\nout y to b;\nendinstance;\nendmsc;\nrace b 2 3\n",
    ),
    (
        b"instances a b c d e f g h i\ncapacity 1\ni send a x\nh send a y\na any\na any\n",
        b"msc run;\ninstance a;\nin y from h;\nin x from i;\nendinstance;\ninstance b;\nendinstance;\ninstance c;\nendinstance;\ninstance d;\nendinstance;\ninstance e;\nendinstance;\ninstance f;\nendinstance;\ninstance g;\nendinstance;\ninstance h;\nout y to a;\nendinstance;\ninstance i;\nout x to a;\nendinstance;\nendmsc;\nrace a 1 2\n",
    ),
    (
        b"instances a b\ncapacity 1\na send b x\na close b\na send b y\n",
        b"msc run;\ninstance a;\nout x to b;\nendinstance;\ninstance b;\nendinstance;\nendmsc;\nnote 5 closed\n",
    ),
    (
        b"instances a b\ncapacity 1\na receive b\na receive b\nb receive a\nb send a x\n",
        b"msc run;\ninstance a;\nendinstance;\ninstance b;\nout x to a;\nendinstance;\nendmsc;\nnote 3 nothing\nnote 4 nothing\nnote 5 nothing\n",
    ),
    (
        b"instances a b\ncapacity 1\na send b x\nb any\nb any\n",
        b"msc run;\ninstance a;\nout x to b;\nendinstance;\ninstance b;\nin x from a;\nendinstance;\nendmsc;\nnote 5 nothing\n",
    ),
    (
        b"instances ada bob cyd\ncapacity 2\nada send bob ping\nada send bob pong\nada send bob ping\ncyd send bob ping\nbob concurrent\nbob concurrent\nbob send ada ping\nbob any\nbob any\nbob endconcurrent\nbob endconcurrent\nbob concurrent\nbob any\nbob any\nbob endconcurrent\nada close bob\nada close bob\nada send bob ping\nbob receive ada\nbob any\ncyd send bob pong\ncyd close bob\nbob receive cyd\nbob any\nada receive bob\n",
        b"msc run;\ninstance ada;\nout ping to bob;\nout pong to bob;\nendinstance;\ninstance bob;\nconcurrent;\nin ping from ada;\nin ping from cyd;\nendconcurrent;\nconcurrent;\nin pong from ada;\nendconcurrent;\nin pong from cyd;\nendinstance;\ninstance cyd;\nout ping to bob;\nout pong to bob;\nendinstance;\nendmsc;\nrace bob 2 3\nrace bob 1 4\nrace bob 3 4\nnote 5 full\nnote 8 open\nnote 9 incoregion\nnote 13 notopen\nnote 16 nothing\nnote 19 closed\nnote 20 closed\nnote 21 ended\nnote 22 nothing\nnote 26 ended\nnote 27 nothing\n",
    ),
    (
        b"instances a b\ncapacity 1\na send b q\nb send a p\na receive b\nb receive a\nb any\n",
        b"msc run;\ninstance a;\nout q to b;\nin p from b;\nendinstance;\ninstance b;\nout p to a;\nin q from a;\nendinstance;\nendmsc;\nrace a 1 2\nrace b 1 2\nnote 7 nothing\n",
    ),
];

/// The SHA-256 digest of what the orders that the seeds 0 to 999 draw of twenty rounds come to, text behind text.
pub static DRAWN: &[u8] =
    b"\xd7\xf4\x16\x4d\xee\x9b\x5c\x16\xec\xdb\x4e\x1c\x7d\xf3\x9c\x22\xcf\xf1\x83\xfa\xfc\x31\xe3\x6d\x1d\xe9\x89\xc2\x26\xb4\x11\xd1";
