//! Parts of site texts.

/// What a site file sets besides its tables.
const SETTINGS: &str = "sac = 25
sic = 100
start = 36000
period = 4
timeout = 16
codes = [0o7000]

[confirm]
stca = [2, 3, 2]
msaw = [2, 3, 2]
apw = [1, 1, 1]
apm = [2, 3, 2]
";

/// A parameter set.
const SET: &str = "[[set]]
name = \"base\"
stca = true
msaw = true
apw = true
apm = true
look_stca = 120
look_msaw = 60
look_apw = 60
look_apm = 60
h = 9260
v_low = 800
v_high = 1000
split = 29000
now_h = 4630
now_v_low = 500
now_v_high = 600
urgent = 20
";

const REGION: &str = "[[region]]
name = \"base\"
set = \"base\"
floor = -5000
ceiling = 100000
points = [[0, 0], [1000, 0], [0, -1]]
";

const VOLUME: &str = "[[volume]]
name = \"base\"
floor = 0
ceiling = 25
points = [[-4194303, 4194303], [0, 1], [2, 3], [2, 3]]
active = [[36006, 40000], [86400, 0]]
";

const FUNNEL: &str = "[[funnel]]
name = \"base\"
x = 1000
y = -2
dx = 0
dy = -1
elevation = 30
reach = 18520
ceiling = 5000
capture_half = 100
capture_side = 1500
half = 200
side = 600
low_base = -100
low_rise = 1000
high_base = 250
high_rise = 2500
";

/// The part of this name, nothing where there is none.
pub fn base_of(name: &str) -> &'static str {
    match name {
        "settings" => SETTINGS,
        "set" => SET,
        "region" => REGION,
        "volume" => VOLUME,
        "funnel" => FUNNEL,
        _ => "",
    }
}
