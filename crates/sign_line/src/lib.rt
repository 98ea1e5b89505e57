// What is kept of one encoder while its stretches are found, and what ends a stretch.
#![tactic(auto)]

ghost use Rattle.std.specs.Prelude.{◌≡◌, true};
ghost use Rattle.laws.specs.Each.{map_from};
ghost use Rattle.encoder.specs.Encoder.{counts_in_quadrature};
ghost use Rattle.sign_line.specs.How.{no_line, configured_line, rerouted_line};

// A stretch that runs: its last pins, and the place of its entry among all. Its sums stand where its entry will.
#[derive(Clone, Copy)]
pub struct Stretch {
    pub pins: u8,
    pub place: usize,
}

// One encoder: whether its CNFG says EN 1, RST 0 and MODE 0, and its stretch, if one runs.
#[derive(Clone, Copy)]
pub struct Line {
    pub counts: bool,
    pub stretch: Option<Stretch>,
}

pub fn no_line() -> Line
    ensures { result ≡ no_line }
{
    Line {
        counts: false,
        stretch: None,
    }
}

fn counts(cnfg: u64) -> bool
    ensures { result ≡ counts_in_quadrature true cnfg }
{
    (cnfg % 2 == 1) & (!(cnfg / 2 % 2 == 1) & !(cnfg / 4 % 2 == 1))
}

pub fn configured(l: Line, cnfg: u64) -> Line
    ensures { result ≡ configured_line cnfg l }
{
    let counts = counts(cnfg);
    let stretch = if counts { l.stretch } else { None };
    Line { counts, stretch }
}

// A write to a bank's SELECT ends the stretches of the encoders that it does not route.
pub fn reroute(lines: &mut [Line; 20], bank: usize, port: bool, select: u64)
    ensures { lines.new ≡ map_from (rerouted_line port bank select) 0 lines.old }
{
    // by number, which the test needs: with an iterator it is no plainer
    for e in 0..20 {
        if e / 10 == bank && !select::encoder_routed(port, select, e % 10) {
            lines[e].stretch = None;
        }
    }
}
