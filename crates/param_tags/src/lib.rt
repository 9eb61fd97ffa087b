//! The tags of functions, and the sites whose variables live on the heap.
//!
//! A site's variables are on the heap where that is known whatever flows, or where a location that outlives them may hold their
//! address, which a least number of -1 tells. A site on the heap outlives all others, so that with one more there, more may
//! have to go there; and it is an end of the flows of tags, so that tags and edges change too. The heap set is the least one
//! that is closed under all this, stated so in `specs/Whole`: it is closed, and its sites are in each set that is closed with
//! tags of its own.
//!
//! It takes no rounds over the program. The functions come in batches, callees first, and the edges of a batch depend on the
//! tags of earlier batches alone, which are final then. So each batch is lowered once, and from each location that an edge goes
//! to there is one walk. What goes in rounds is the closure in the batch: the walks give the pairs of a location and a site
//! whose address it may hold, and sites join as long as a pair's location outlives its site. Then the tags of the batch are read
//! off the walks. A site that joins later is none of an earlier batch, and nothing flows from there to the parameters of one, so
//! that earlier tags stay right.
//!
//! Why this set is the least: a closed set has lesser tags for what the batch calls, lesser tags give finer edges, with no
//! greater weights, and finer edges no greater flows. So what the batch's locations hold they hold in the closed set, and each
//! site that joins is there. A home says why its site is on the heap, and a path along edges shows it.
//!
//! The rules are those of Go's escape analysis (the comments of cmd/compile/internal/escape, solve.go and leaks.go).
#![tactic(auto)]

pub mod laws;
mod paths;
mod rounds;
mod solving;
mod tags;
mod walks;

pub use solving::{Solved, solve};
