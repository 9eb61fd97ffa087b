//! The words of frames.
//!
//! A frame holds, from its lowest word up, the outgoing area, in which the arguments and results of the calls that the
//! function makes stand, the temps in which values are worked out, a cell for each site whose variables live on the heap, the
//! words of each other site, the link to the caller's frame and the return place. How many temps a function wants is a
//! recursion on its body: the words of an expression's value land in temps, and while the values after it are worked out
//! they are kept. A parameter whose variables live on the heap goes through temps, too. The outgoing area has room for the
//! call with the most words. A frame that has more than 65,535 words is refused. How many words a value has is said by
//! its type, here and for the code.
#![tactic(auto)]

mod fault;
mod layout;
mod outgoing;
mod temps;
mod words;

pub use fault::LayoutFault;
pub use layout::{FrameLayout, Layouts, layout_of};
pub use words::{
    all_words, arguments_of, element_words, expr_words, place_words, results_of, row_words,
    site_of_global, site_starts, site_words, type_words, values_words,
};
