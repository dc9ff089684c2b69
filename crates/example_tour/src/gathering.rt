//! The result of a board.
ghost use Rattle.board.specs.Meeting.{AreOfOneBoard};

use anyhow::bail;
use board::{GatherError, Post, gather};
use std::alloc::Global;

/// Gathers a board, and prints the result.
pub fn gather_board<R: Print>(rt: &R, alloc: Global, posts: Vec<Post>) -> anyhow::Result<()>
    requires { AreOfOneBoard posts.items }
{
    match gather(alloc, posts) {
        Ok(gathered) => {
            for line in gathered.chart.lines() {
                println!(rt;
                    "instance {}: {} events",
                    line.instance().number(),
                    line.len()
                )?;
            }
            for report in gathered.reports.iter() {
                println!(rt; "a receive with {} races", report.earlier().len())?;
            }
            for left in gathered.left.iter() {
                println!(rt; "{} messages are left", left.messages.len())?;
            }
            Ok(())
        }
        Err(GatherError { posts: _, cause }) => bail!("not gathered: {cause}"),
    }
}
