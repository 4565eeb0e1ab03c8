//! Which messages go where by a plan, as a table.

ghost use Rattle.std.specs.Prelude.{◌≡◌, ◌||◌, is_some};

use plan_text::{Channel, MessageType, Plan, Route};
use std::alloc::{AllocError, Global};

/// The heads of the columns whose cells are padded. The last column, of the types, has no width of its own.
const CHANNEL: &str = "channel";

const DESTINATION: &str = "destination";

const FILTER: &str = "filter";

/// How wide the columns of the names are, in bytes.
#[derive(Clone, Copy)]
struct Widths {
    channel: usize,
    destination: usize,
}

impl Widths {
    /// The widths that the longest names of a plan need.
    fn of(plan: &Plan) -> Widths {
        let mut channel = CHANNEL.len();
        for index in 0..plan.channels() {
            if let Some(found) = plan.channel(index) {
                channel = channel.max(found.name().len());
            }
        }
        let mut destination = DESTINATION.len();
        for index in 0..plan.destinations() {
            if let Some(found) = plan.destination(index) {
                destination = destination.max(found.name().len());
            }
        }
        Widths {
            channel,
            destination,
        }
    }

    /// Adds a row's cells, but for its types.
    fn add_cells(
        self,
        text: &mut String,
        channel: &str,
        destination: &str,
        filter: &str,
    ) -> Result<(), AllocError> {
        add_cell(text, channel, self.channel)?;
        add_cell(text, destination, self.destination)?;
        add_cell(text, filter, FILTER.len())
    }
}

/// Adds a cell, padded to its column's width, and the gap behind it.
fn add_cell(text: &mut String, cell: &str, width: usize) -> Result<(), AllocError> {
    text.push_str(cell)?;
    for _ in cell.len()..width {
        text.push(' ')?;
    }
    text.push_str("  ")
}

/// Adds an entry of a list of types, as the plan writes it.
fn add_type(text: &mut String, entry: &MessageType) -> Result<(), AllocError> {
    match entry {
        MessageType::Any => text.push('*'),
        MessageType::Code(code) => text.push_str(code.as_str()),
        MessageType::CodeAndEvent(code, event) => {
            write!(text, "{}^{}", code.as_str(), event.as_str())
        }
    }
}

/// Adds the types that a channel takes, and ends the row.
fn add_types(text: &mut String, types: &[MessageType]) -> Result<(), AllocError> {
    if types.is_empty() {
        text.push_str("none")?;
    }
    for index in 0..types.len() {
        if index > 0 {
            text.push_str(", ")?;
        }
        add_type(&mut *text, &types[index])?;
    }
    text.push('\n')
}

/// Whether a message has to meet a condition on the way, of the channel or of the route.
fn is_filtered(channel: &Channel, route: &Route) -> bool
    ensures { result ≡ (is_some channel.now.filter || is_some route.now.filter) }
{
    channel.filter().is_some() || route.filter().is_some()
}

/// The word for whether there is a condition.
fn word(filtered: bool) -> &'static str {
    if filtered { "yes" } else { "no" }
}

/// Adds a channel's rows: one for each route, or one without a destination where it has no route.
fn add_channel(
    text: &mut String,
    plan: &Plan,
    widths: Widths,
    channel: &Channel,
) -> Result<(), AllocError> {
    let name = channel.name();
    if channel.routes().is_empty() {
        let filter = word(channel.filter().is_some());
        widths.add_cells(&mut *text, name, "-", filter)?;
        add_types(&mut *text, channel.types())?;
    }
    for route in channel.routes() {
        if let Some(destination) = plan.destination(route.to()) {
            let filter = word(is_filtered(channel, route));
            widths.add_cells(&mut *text, name, destination.name(), filter)?;
            add_types(&mut *text, channel.types())?;
        }
    }
    Ok(())
}

/// Which messages go where by a plan: a line of heads, and a line for each route, in the order of the plan. A line has the
/// channel's name, the destination's, `yes` where the channel or the route has a filter, else `no`, and the message types that
/// the channel takes. A channel without routes has one line, with `-` for the destination.
///
/// # Errors
///
/// Where the system is out of memory.
pub fn plan_table(alloc: Global, plan: &Plan) -> Result<String, AllocError> {
    let widths = Widths::of(plan);
    let mut text = String::new(alloc);
    widths.add_cells(&mut text, CHANNEL, DESTINATION, FILTER)?;
    text.push_str("types\n")?;
    for index in 0..plan.channels() {
        if let Some(channel) = plan.channel(index) {
            add_channel(&mut text, plan, widths, channel)?;
        }
    }
    Ok(text)
}
