//! Tests of stops over the loopback interface: what peers notice while one crew of workers follows another.
use super::servers::{Silent, address_of, port, site};
use line_session::Doors;
use site_server::{
    AtOnce, Crew, NoJournal, NoWatcher, OpenDoor, Serving, ServingHooks, SharedDoor, SocketDoors,
    Stop,
};
use std::alloc::Global;
use std::io::{self, BufRead, BufReader, Write};
use std::net::{Net, SocketAddr, TcpListener, TcpStream};
use std::sync::{Arc, Wait};
use std::test::Fail;
use std::thread::{self, Threads, join};
use std::time::{Clock, Duration, Instant};
use till_request::{LineOut, Role, Stray};

/// A door of workers for till 1, who can be asked to stop.
#[derive(Drop)]
struct Post {
    crew: Crew,
    at: SocketAddr,
    stop: Arc<Stop>,
}

impl Post {
    fn open<R: Net<Listener = TcpListener, Stream = TcpStream>>(
        rt: &R,
        alloc: Global,
        workers: u32,
    ) -> Result<Post, Fail> {
        let stop = Arc::new(alloc, Stop::new())?;
        let listener = port(rt)?;
        let at = address_of(&listener)?;
        let mut doors = Vec::new(alloc);
        doors.push(OpenDoor {
            role: Role::OneTill(1, Stray::BadLine),
            listener,
            workers,
            lines_per_second: 0,
        })?;
        let crew = Crew::new(alloc, doors, Some(Arc::try_clone(&stop)?))?.ok_or("a crew")?;
        Ok(Post { crew, at, stop })
    }

    /// Serves a new site until the stop is asked for, while `peers` runs. Returns how many entries the site then has.
    fn serve<
        R: Net<Listener = TcpListener, Stream = TcpStream> + Threads + Wait + Clock + Sync,
        F: FnOnce() -> io::Result<()> + Send + Drop,
    >(&self, rt: &R, alloc: Global, peers: F) -> Result<usize, Fail>
        requires { F.pre peers }
    {
        self.stop.withdraw();
        let serving = Serving {
            watched: site(alloc)?,
            journal: NoJournal,
            crew: self.crew.try_clone(alloc)?,
            day: 1,
            connections: None,
            idle_seconds: 0,
            ready_entries: 0,
        };
        let outside = ServingHooks {
            notices: &Silent,
            release: &AtOnce,
            watcher: &NoWatcher,
        };
        let stop: &Stop = &self.stop;
        let (served, done) = join(
            rt,
            || serving.run(rt, alloc, outside),
            ||
                requires { F.pre peers }
            {
                let done = peers();
                stop.ask();
                done
            },
        );
        done?;
        match served {
            Ok(served) => Ok(served.site.history().len()),
            Err(_) => Err(Fail::from("a closed site")),
        }
    }
}

/// A till that sends and hears lines.
#[derive(Drop)]
struct Till {
    reader: BufReader<TcpStream>,
    heard: String,
}

impl Till {
    fn connect<R: Net<Listener = TcpListener, Stream = TcpStream>>(
        rt: &R,
        alloc: Global,
        at: SocketAddr,
    ) -> io::Result<Till> {
        let stream = TcpStream::connect(rt, at)?;
        Ok(Till {
            reader: BufReader::new(alloc, stream)?,
            heard: String::new(alloc),
        })
    }

    fn say(&mut self, bytes: &str) -> io::Result<()> {
        self.reader.get_mut().write_all(bytes.as_bytes())
    }

    fn hear(&mut self, answers: u32) -> io::Result<()> {
        for _ in 0..answers {
            self.reader.read_line(&mut self.heard)?;
        }
        Ok(())
    }
}

#[test]
fn a_line_half_sent_is_answered_once(rt: HostRuntime) -> Result<(), Fail> {
    let post = Post::open(&rt, rt.alloc(), 2)?;
    let mut till = Till::connect(&rt, rt.alloc(), post.at)?;
    let first = post.serve(&rt, rt.alloc(), || {
        till.say("till 1 open 1\ntill 1 clo")?;
        till.hear(1)
    })?;
    let second = post.serve(&rt, rt.alloc(), || {
        till.say("se 1\ntill 1 open 1\n")?;
        till.hear(2)
    })?;
    assert!(rt; till.heard.as_str() == "1 done\n1 S22 2\n2 done\n" && first == 1 && second == 2);
    Ok(())
}

const LINES: u32 = 3000;

#[test]
fn lines_sent_together_are_answered_once_each(rt: HostRuntime) -> Result<(), Fail> {
    let post = Post::open(&rt, rt.alloc(), 1)?;
    let mut till = Till::connect(&rt, rt.alloc(), post.at)?;
    let first = post.serve(&rt, rt.alloc(), || {
        for _ in 0..LINES {
            till.say("till 1 open 1\n")?;
        }
        till.hear(1)
    })?;
    let second = post.serve(&rt, rt.alloc(), || till.hear(LINES - 1))?;
    assert!(rt; first.checked_add(second) == Some(LINES as usize));
    Ok(())
}

#[test]
fn a_till_that_waits_is_kept(rt: HostRuntime) -> Result<(), Fail> {
    let post = Post::open(&rt, rt.alloc(), 2)?;
    let mut silent = Till::connect(&rt, rt.alloc(), post.at)?;
    let mut till = Till::connect(&rt, rt.alloc(), post.at)?;
    for _day in 0..3 {
        post.serve(&rt, rt.alloc(), || {
            till.say("till 1 open 1\n")?;
            till.hear(1)?;
            thread::sleep(&rt, Duration::from_millis(50));
            Ok(())
        })?;
    }
    post.serve(&rt, rt.alloc(), || {
        silent.say("till 1 open 1\n")?;
        silent.hear(1)
    })?;
    assert!(rt;
        till.heard.as_str() == "1 done\n1 done\n1 done\n" && silent.heard.as_str() == "1 done\n"
    );
    Ok(())
}

#[test]
fn a_connection_that_comes_between_days_is_served(rt: HostRuntime) -> Result<(), Fail> {
    let post = Post::open(&rt, rt.alloc(), 2)?;
    post.serve(&rt, rt.alloc(), || Ok(()))?;
    post.stop.ask();
    let mut till = Till::connect(&rt, rt.alloc(), post.at)?;
    till.say("till 1 open 1\n")?;
    post.serve(&rt, rt.alloc(), || till.hear(1))?;
    assert!(rt; till.heard.as_str() == "1 done\n");
    Ok(())
}

/// Returns how long 64 workers took to stop, 32 of them at a connection on which nothing comes.
fn time_to_stop<R: Net<Listener = TcpListener, Stream = TcpStream> + Threads + Wait + Clock + Sync>(
    rt: &R,
    alloc: Global,
) -> Result<Duration, Fail> {
    let post = Post::open(rt, alloc, 64)?;
    let mut tills = Vec::new(alloc);
    for _ in 0..32 {
        tills.push(Till::connect(rt, alloc, post.at)?)?;
    }
    let mut asked = Instant::now(rt)?;
    post.serve(rt, alloc, || {
        for till in &mut tills {
            till.say("till 1 open 1\n")?;
            till.hear(1)?;
        }
        thread::sleep(rt, Duration::from_millis(100));
        asked = Instant::now(rt)?;
        Ok(())
    })?;
    Ok(asked.elapsed(rt)?)
}

#[test]
fn all_workers_stop_soon(rt: HostRuntime) -> Result<(), Fail> {
    let time = time_to_stop(&rt, rt.alloc())?;
    eprintln!(rt; "stopped in {time:?}")?;
    assert!(rt; time < Duration::from_secs(1));
    Ok(())
}

/// Writes to a peer that takes nothing, while a stop is asked for. Returns whether a write fails in the end.
fn is_hung_up<R: Net<Listener = TcpListener, Stream = TcpStream> + Wait + Clock>(
    rt: &R,
    alloc: Global,
) -> Result<bool, Fail> {
    let stop = Arc::new(alloc, Stop::new())?;
    let door = SharedDoor::new(alloc, port(rt)?, 0, Some(Arc::try_clone(&stop)?));
    let _peer = TcpStream::connect(rt, address_of(&door.listener)?)?;
    let mut doors = SocketDoors::new(rt, alloc, &door, &Silent, Role::Till, 1, 0, 1, Some(&stop));
    let Ok((_input, mut output)) = doors.next() else {
        return Ok(false);
    };
    stop.ask();
    let piece = [b'0'; 4096];
    for _ in 0..100_000 {
        if output.write(&piece).is_err() {
            return Ok(true);
        }
    }
    Ok(false)
}

#[test]
fn a_peer_that_takes_nothing_is_hung_up(rt: HostRuntime) -> Result<(), Fail> {
    assert!(rt; is_hung_up(&rt, rt.alloc())?);
    Ok(())
}
