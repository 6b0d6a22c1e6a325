//! A plain machine for one game: a table of its six nodes, with no bounds.
//!
//! The nodes are, by number: 1 and 2 the prefixes of one type, 3 and 4 the nodes of the cap, 5 and 6 the parts of the second prefix. The first four may
//! be taken at once. Once the second prefix and both nodes of the cap are worked, that prefix alone may be split, for node 5; and then node 6 may be taken.

use sg_search::{Event, Ready};

/// How many moves the program of each node makes.
const MOVES: [u8; 6] = [1, 2, 2, 1, 2, 2];

/// Where a node stands.
#[derive(Clone, Copy, PartialEq, Eq)]
enum Place {
    Unknown,
    Waiting,
    Held,
    Worked,
}

/// What a lane holds: a node by its number, 0 for none, how many moves it has made, and whether it has ended.
#[derive(Clone, Copy)]
struct Lane {
    node: u8,
    moves: u8,
    ended: bool,
}

/// What an event comes to.
#[derive(Clone, Copy, PartialEq, Eq)]
pub enum Answer {
    Idle,
    Took(u8),
    Moved,
    Ended,
    Closed,
}

/// The machine, with one or two lanes.
#[derive(Clone, Copy)]
pub struct Plain {
    count: u8,
    lanes: [Lane; 2],
    places: [Place; 6],
}

const FREE: Lane = Lane {
    node: 0,
    moves: 0,
    ended: false,
};

impl Plain {
    /// The start, with one lane or two.
    pub fn new(count: u8) -> Plain {
        Plain {
            count,
            lanes: [FREE; 2],
            places: [
                Place::Waiting,
                Place::Waiting,
                Place::Waiting,
                Place::Waiting,
                Place::Unknown,
                Place::Unknown,
            ],
        }
    }

    /// Where the node of a number stands.
    fn place(&self, node: u8) -> Place {
        if node == 0 || node > 6 {
            return Place::Unknown;
        }
        self.places[node as usize - 1]
    }

    /// Puts the node of a number somewhere.
    fn put(&mut self, node: u8, place: Place) {
        if node >= 1 && node <= 6 {
            self.places[node as usize - 1] = place;
        }
    }

    /// What a lane holds, where there is such a lane.
    fn lane(&self, lane: u8) -> Option<Lane> {
        if lane == 0 || lane > 2 || lane > self.count {
            return None;
        }
        Some(self.lanes[lane as usize - 1])
    }

    /// Gives a lane something to hold.
    fn set(&mut self, lane: u8, held: Lane) {
        if lane >= 1 && lane <= 2 {
            self.lanes[lane as usize - 1] = held;
        }
    }

    /// Whether the second prefix may be split.
    fn may_split(&self) -> bool {
        self.place(5) == Place::Unknown
            && self.place(2) == Place::Worked
            && self.place(3) == Place::Worked
            && self.place(4) == Place::Worked
            && self.place(1) != Place::Waiting
    }

    /// How many nodes may be chosen.
    fn choices(&self) -> u32 {
        let mut count = 0u32;
        for node in 1..7u8 {
            if self.place(node) == Place::Waiting {
                count = count.saturating_add(1);
            }
        }
        if count == 0 && self.may_split() {
            1
        } else {
            count
        }
    }

    /// The node of a choice, from 0.
    fn choice(&self, n: u32) -> u8 {
        let mut left = n;
        for node in 1..7u8 {
            if self.place(node) == Place::Waiting {
                if left == 0 {
                    return node;
                }
                left = left.saturating_sub(1);
            }
        }
        5
    }

    /// What a lane may be asked to do.
    pub fn enabled(&self, lane: u8) -> Ready {
        match self.lane(lane) {
            None => Ready::Nothing,
            Some(held) => {
                if held.node != 0 {
                    if held.ended {
                        Ready::Finish
                    } else {
                        Ready::Turn
                    }
                } else {
                    let count = self.choices();
                    if count == 0 {
                        Ready::Nothing
                    } else {
                        Ready::Begin(count)
                    }
                }
            }
        }
    }

    /// A lane takes a node.
    fn begin(&mut self, lane: u8, n: u32) -> Answer {
        let node = self.choice(n);
        if self.place(node) == Place::Unknown {
            self.put(6, Place::Waiting);
        }
        self.put(node, Place::Held);
        self.set(
            lane,
            Lane {
                node,
                moves: 0,
                ended: false,
            },
        );
        Answer::Took(node)
    }

    /// A lane's program makes a step.
    fn turn(&mut self, lane: u8) -> Answer {
        match self.lane(lane) {
            Some(held) => {
                let most = match MOVES.get((held.node as usize).saturating_sub(1)) {
                    Some(most) => *most,
                    None => 0,
                };
                if held.moves < most {
                    self.set(
                        lane,
                        Lane {
                            node: held.node,
                            moves: held.moves.saturating_add(1),
                            ended: false,
                        },
                    );
                    Answer::Moved
                } else {
                    self.set(
                        lane,
                        Lane {
                            node: held.node,
                            moves: held.moves,
                            ended: true,
                        },
                    );
                    Answer::Ended
                }
            }
            None => Answer::Idle,
        }
    }

    /// A lane's node is finished.
    fn finish(&mut self, lane: u8) -> Answer {
        match self.lane(lane) {
            Some(held) => {
                self.put(held.node, Place::Worked);
                self.set(lane, FREE);
                Answer::Closed
            }
            None => Answer::Idle,
        }
    }

    /// An event.
    pub fn event(&mut self, e: Event) -> Answer {
        match e {
            Event::Begin(lane, n) => match self.enabled(lane) {
                Ready::Begin(count) if n < count => self.begin(lane, n),
                _ => Answer::Idle,
            },
            Event::Turn(lane) => match self.enabled(lane) {
                Ready::Turn => self.turn(lane),
                _ => Answer::Idle,
            },
            Event::Finish(lane) => match self.enabled(lane) {
                Ready::Finish => self.finish(lane),
                _ => Answer::Idle,
            },
        }
    }
}
