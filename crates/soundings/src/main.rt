#![tactic(auto)]
// The worked cases of document 01, and of document 02, No. 4, S and X as buffer_state/specs/Soundings.antt names them, run by the compiled
// calls; what is written is compared with the file stdout.
// A line for each call: its answer, with the fate lines or the ranges that it wrote. One store is used by all cases, and each creates its
// buffers in it anew.
use buffer_state::{Group, Head, LAST_GROUP, Mode, Offered, PLACES, Refusal, Tags, Times};
use std::io;
use std::io::Write;
use text::{Fates, Output, Ranges};

// A frame of the one video track, a random access point or none, shown and decoded at these times.
fn offered(flagged: bool, pts: i64, dts: i64) -> Offered {
    Offered {
        track: 1,
        flagged,
        duration: 100,
        pts,
        dts,
    }
}

// A buffer with one video track, and where the calls on it are told.
#[derive(Drop)]
struct Run<W: Write> {
    head: Head,
    times: Times,
    tags: Tags,
    out: Output<W>,
}

impl<W: Write> Run<W> {
    fn new(to: W) -> Self {
        Run {
            head: settings::no_head(),
            times: [[0; 2]; PLACES],
            tags: [[0; 5]; PLACES],
            out: Output::new(to),
        }
    }

    // ---- what is written

    fn refused(&mut self, why: Refusal) -> io::Result<()> {
        writeln!(self.out, "refused {}", why.number())
    }

    fn changed(&mut self, answer: Result<(), Refusal>) -> io::Result<()> {
        match answer {
            Ok(()) => writeln!(self.out, "done"),
            Err(why) => self.refused(why),
        }
    }

    fn counted(
        &mut self,
        answer: Result<usize, Refusal>,
        fates: &[[u32; 2]; PLACES],
    ) -> io::Result<()> {
        match answer {
            Ok(n) => writeln!(self.out, "{}", Fates(&fates[..n.min(PLACES)])),
            Err(why) => self.refused(why),
        }
    }

    fn report(&mut self) -> io::Result<()> {
        let mut list = [[0; 2]; PLACES];
        match ranges::track_ranges(self.head, &self.times, &self.tags, 1, &mut list) {
            Ok(n) => writeln!(self.out, "{}", Ranges(&list[..n.min(PLACES)])),
            Err(why) => self.refused(why),
        }
    }

    // The stored frames: the number of each, when it is shown, when it is decoded.
    fn stored(&mut self) -> io::Result<()> {
        write!(self.out, "stored")?;
        for i in 0..self.head.nframes.min(PLACES) {
            let f = places::frame_at(&self.times, &self.tags, i);
            write!(self.out, " {}:{}/{}", f.number, f.pts, f.dts)?;
        }
        writeln!(self.out)
    }

    fn group_end(&mut self) -> io::Result<()> {
        writeln!(self.out, "group end {}", self.head.group.end)
    }

    fn offset(&mut self) -> io::Result<()> {
        writeln!(self.out, "offset {}", self.head.settings.offset.micros)
    }

    // Whether the first track's last decode timestamp, last duration and highest end are set.
    fn known(&mut self) -> io::Result<()> {
        let which = if self.head.tracks[0].known {
            "set"
        } else {
            "unset"
        };
        writeln!(self.out, "the three {which}")
    }

    // ---- the calls

    fn fresh(&mut self) {
        let created = settings::create(&[0], &mut self.times, &mut self.tags);
        self.head = created.unwrap_or(settings::no_head());
    }

    fn append(&mut self, f: Offered) -> io::Result<()> {
        let mut fates = [[0; 2]; PLACES];
        let head = &mut self.head;
        let answer = append::append(head, f, &mut self.times, &mut self.tags, &mut fates);
        self.counted(answer, &fates)
    }

    // R of document 01, a random access point, and P, which is none: shown, then decoded.
    fn r(&mut self, pts: i64, dts: i64) -> io::Result<()> {
        self.append(offered(true, pts, dts))
    }

    fn p(&mut self, pts: i64, dts: i64) -> io::Result<()> {
        self.append(offered(false, pts, dts))
    }

    fn remove(&mut self, start: f64, end: f64) -> io::Result<()> {
        let mut fates = [[0; 2]; PLACES];
        let answer = remove::remove(
            &mut self.head,
            start,
            end,
            &mut self.times,
            &mut self.tags,
            &mut fates,
        );
        self.counted(answer, &fates)
    }

    fn abort(&mut self) -> io::Result<()> {
        let answer = settings::abort(&mut self.head, &self.times, &self.tags);
        self.changed(answer)
    }

    // ---- where cases begin

    // A itself, with which B and C begin.
    fn two(&mut self) -> io::Result<()> {
        self.fresh();
        self.r(0, 0)?;
        self.p(100, 100)
    }

    // E's first four appends, with which H and I begin.
    fn four(&mut self) -> io::Result<()> {
        self.two()?;
        self.p(200, 200)?;
        self.r(300, 300)
    }

    // A store that holds all it can: random access points, each where the one before ends. None of it is told.
    fn full(&mut self) {
        self.fresh();
        let mut fates = [[0; 2]; PLACES];
        for i in 0..PLACES {
            let at = i as i64 * 100;
            let f = offered(true, at, at);
            let head = &mut self.head;
            let _ = append::append(head, f, &mut self.times, &mut self.tags, &mut fates);
        }
    }

    // ---- the cases

    fn case_a(&mut self) -> io::Result<()> {
        writeln!(self.out, "A")?;
        self.two()?;
        self.report()
    }

    fn case_b(&mut self) -> io::Result<()> {
        writeln!(self.out, "B")?;
        self.two()?;
        self.p(400, 300)?;
        self.report()
    }

    fn case_c(&mut self) -> io::Result<()> {
        writeln!(self.out, "C")?;
        self.two()?;
        self.p(400, 301)?;
        self.group_end()?;
        self.report()
    }

    fn case_d(&mut self) -> io::Result<()> {
        writeln!(self.out, "D")?;
        self.fresh();
        self.r(0, 0)?;
        self.p(101, 101)?;
        self.report()
    }

    fn case_e(&mut self) -> io::Result<()> {
        writeln!(self.out, "E")?;
        self.four()?;
        self.abort()?;
        self.r(100, 100)?;
        self.stored()?;
        self.report()
    }

    fn case_f(&mut self) -> io::Result<()> {
        writeln!(self.out, "F")?;
        self.fresh();
        self.r(0, 0)?;
        self.abort()?;
        self.r(200, 0)?;
        self.p(0, 100)?;
        self.stored()?;
        self.report()
    }

    fn case_g(&mut self) -> io::Result<()> {
        writeln!(self.out, "G")?;
        self.fresh();
        let answer = settings::set_mode(&mut self.head, &self.times, &self.tags, Mode::Sequence);
        self.changed(answer)?;
        self.r(5000, 4900)?;
        self.stored()?;
        self.r(9000, 8900)?;
        self.stored()?;
        self.offset()?;
        self.report()
    }

    fn case_h(&mut self) -> io::Result<()> {
        writeln!(self.out, "H")?;
        self.four()?;
        self.remove(0.00015, 0.00025)?;
        self.report()
    }

    fn case_i(&mut self) -> io::Result<()> {
        writeln!(self.out, "I")?;
        self.four()?;
        self.remove(0.00015, 0.00035)?;
        self.group_end()?;
        self.known()?;
        self.report()
    }

    // A frame on a buffer with J's window.
    fn in_window(&mut self, at: i64) -> io::Result<()> {
        self.fresh();
        let answer = settings::set_window_end(&mut self.head, &self.times, &self.tags, 0.00015);
        self.changed(answer)?;
        let answer = settings::set_window_start(&mut self.head, &self.times, &self.tags, 0.00005);
        self.changed(answer)?;
        self.r(at, at)?;
        self.report()
    }

    fn case_j(&mut self) -> io::Result<()> {
        writeln!(self.out, "J")?;
        self.in_window(49)?;
        self.in_window(50)?;
        self.in_window(51)
    }

    fn case_l(&mut self) -> io::Result<()> {
        writeln!(self.out, "L")?;
        self.fresh();
        let answer = settings::set_offset(
            &mut self.head,
            &self.times,
            &self.tags,
            1000000.0000000001,
        );
        self.changed(answer)?;
        for duration in [0, 10000000] {
            self.append(Offered {
                duration,
                ..offered(true, 0, 0)
            })?;
        }
        self.full();
        self.report()?;
        self.r(102400, 102400)?;
        self.r(0, 0)?;
        self.report()
    }

    // The example of No. 4: old frame 2 goes, and new frame 4 stays.
    fn case_s(&mut self) -> io::Result<()> {
        writeln!(self.out, "S")?;
        self.fresh();
        self.r(0, 0)?;
        self.p(400, 150)?;
        self.abort()?;
        self.r(200, 100)?;
        self.p(300, 200)?;
        self.p(400, 250)?;
        self.stored()?;
        self.report()
    }

    // Whatever would begin a group after the last is refused; the last is used.
    fn case_x(&mut self) -> io::Result<()> {
        writeln!(self.out, "X")?;
        self.fresh();
        self.head.group = Group {
            number: LAST_GROUP,
            ..self.head.group
        };
        self.abort()?;
        self.r(0, 0)?;
        self.p(100, 100)?;
        self.p(400, 301)?;
        self.remove(0.00005, 0.00015)?;
        self.r(200, 200)?;
        self.remove(0.00005, 0.00015)?;
        self.stored()?;
        self.report()
    }

    fn cases(&mut self) -> io::Result<()> {
        self.case_a()?;
        self.case_b()?;
        self.case_c()?;
        self.case_d()?;
        self.case_e()?;
        self.case_f()?;
        self.case_g()?;
        self.case_h()?;
        self.case_i()?;
        self.case_j()?;
        self.case_l()?;
        self.case_s()?;
        self.case_x()
    }
}

fn main(rt: HostRuntime) -> io::Result<()> {
    let mut run = Run::new(rt.stdout());
    run.cases()?;
    run.out.tell_failed("soundings", &mut rt.stderr());
    Ok(())
}
