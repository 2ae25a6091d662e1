// What is asked of one stream of a sender as one value: nothing changes. Each answer is the model's, of every sender. Refusal: 3.
ghost use Rattle.std.specs.Prelude.{◌≡◌};
ghost use Rattle.model.specs.Streams.{find, amount, counts};
ghost use Rattle.sender.specs.Value.{state_of};

use super::Sender;
use limits::Refusal;
use model::Statistics;

impl Sender {
    pub fn buffered_amount(&self, identifier: u16) -> Result<u64, Refusal>
        ensures { result ≡ amount (find identifier (state_of self.now).streams) (λ t. t.buffered) }
    {
        sender_asks::buffered_amount(&self.head, &self.cells, identifier)
    }

    pub fn low_threshold(&self, identifier: u16) -> Result<u64, Refusal>
        ensures { result ≡ amount (find identifier (state_of self.now).streams) (λ t. t.low) }
    {
        sender_asks::low_threshold(&self.head, &self.cells, identifier)
    }

    pub fn high_threshold(&self, identifier: u16) -> Result<u64, Refusal>
        ensures { result ≡ amount (find identifier (state_of self.now).streams) (λ t. t.high) }
    {
        sender_asks::high_threshold(&self.head, &self.cells, identifier)
    }

    // Messages and bytes sent.
    pub fn statistics(&self, identifier: u16) -> Result<Statistics, Refusal>
        ensures { result ≡ counts (find identifier (state_of self.now).streams) }
    {
        sender_asks::statistics(&self.head, &self.cells, identifier)
    }
}
