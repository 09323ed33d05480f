// The lines of the lanes.

ghost use Rattle.std.specs.Prelude.{◌≡◌, IfOk, length, string_bytes};
ghost use Rattle.vk_types.specs.Numbers.{number_of};
ghost use Rattle.vk_lanes.specs.Masks.{is_on, lane_count};
ghost use Rattle.vk_lanes.specs.Words.{word_in};
ghost use Rattle.vk_ends.specs.Ends.{stop_word};
ghost use Rattle.vk_lane_lines.specs.Lines.{AreResults, IsResult, lane_lines, line, stops_in, told_of};

use std::alloc::{AllocError, Global};
use vk_io::Lines;
use vk_lanes::LaneMask;
use vk_memory::Memory;
use vk_types::{Stop, Ty, Word, number};

/// What is told of a lane.
#[derive(Clone, Copy, PartialEq, Eq, Debug)]
pub enum Told {
    /// It was not active.
    Off,
    /// It stopped.
    Stopped(Stop),
    /// It ended, and the function has no result.
    Done,
    /// It ended with this number.
    Value(i128),
}

/// The line of each lane of a call of a function with a result of this type, or with none: `lane 0: 2`, `lane 0: done`,
/// `lane 0: off`, `lane 0: stop divide`.
///
/// `words` and `stops` have one for each lane. In an active lane that has not stopped the word is canonical for the type.
pub fn lane_lines(
    alloc: Global,
    ty: Option<Ty>,
    mask: &LaneMask,
    words: &[Word],
    stops: &[Option<Stop>],
) -> Result<Lines, Memory>
    requires words { length words.now ≡ lane_count mask.now }
    requires stops { length stops.now ≡ lane_count mask.now }
    requires results { AreResults ty (lane_count mask.now) (is_on mask.now) (word_in words.now) (stops_in stops.now) }
    ensures { IfOk result (λ lines. lines ≡ lane_lines ty (lane_count mask.now) (is_on mask.now) (word_in words.now) (stops_in stops.now)) }
{
    let mut lines = Lines::new(alloc);
    for lane in 0..mask.len() {
        let told = told_of(ty, mask.get(lane), words[lane], stops[lane]);
        let line = line_of(alloc, lane, told)?;
        lines.push(line.as_bytes())?;
    }
    Ok(lines)
}

// What is told of a lane that is active or not, of its word and its stop.
fn told_of(ty: Option<Ty>, is_on: bool, word: Word, stop: Option<Stop>) -> Told
    requires { IsResult ty is_on word.0 stop }
    ensures { result ≡ told_of ty is_on word.0 stop }
{
    if !is_on {
        return Told::Off;
    }
    match stop {
        Some(stop) => Told::Stopped(stop),
        None => match ty {
            Some(ty) => Told::Value(number(ty, word)),
            None => Told::Done,
        },
    }
}

// The line of a lane.
fn line_of(alloc: Global, lane: usize, told: Told) -> Result<String, AllocError>
    ensures { IfOk result (λ text. string_bytes text ≡ line lane told) }
{
    match told {
        Told::Off => format!(in alloc; "lane {lane}: off\n"),
        Told::Stopped(stop) => {
            let word = word_of(stop);
            format!(in alloc; "lane {lane}: stop {word}\n")
        }
        Told::Done => format!(in alloc; "lane {lane}: done\n"),
        Told::Value(value) => format!(in alloc; "lane {lane}: {value}\n"),
    }
}

// The word of a stop.
fn word_of(stop: Stop) -> &'static str
    ensures { result.now ≡ stop_word stop }
{
    match stop {
        Stop::Divide => "divide",
        Stop::Bounds => "bounds",
        Stop::Turns => "turns",
    }
}
