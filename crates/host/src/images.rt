// Images read into the bytes of a record and its words, and written of them; the restart.
ghost use Rattle.std.specs.Prelude.{◌≡◌, length};
ghost use Rattle.words.specs.Answer.{number_of};
ghost use Rattle.image_reader.specs.Reader.{memory_after, mapped};
ghost use Rattle.image_writer.specs.Writer.{output_after};
ghost use Rattle.held_runs.specs.Opened.{replaced, code_of};
ghost use Rattle.held_images.specs.Images.{image_read, machine_read, image_written, restart_of};

use crate::numbers::{code, status};
use held_images::{read_held, restart_held, write_held};

// Reads an image into the bytes of a record, whatever they hold, and its words. Gives 0, or the number of the refusal.
pub fn zenkorv_read(image: &[u8], bytes: &mut [u8], words: &mut [u32]) -> u8
    ensures number { result ≡ number_of (image_read image.now bytes.old words.old) }
    ensures bytes { bytes.new ≡ replaced bytes.old (machine_read (image_read image.now bytes.old words.old)) }
    ensures words { words.new ≡ memory_after words.old (image_read image.now bytes.old words.old) }
{
    status(read_held(image, bytes, words))
}

// Writes the image of the record that bytes hold. Gives its length, or 0x10000 plus the number of the refusal.
pub fn zenkorv_write(bytes: &[u8], words: &[u32], output: &mut [u8]) -> u32
    ensures code { result ≡ code_of (mapped length (image_written bytes.now words.now output.old)) }
    ensures output { output.new ≡ output_after output.old (image_written bytes.now words.now output.old) }
{
    code(write_held(bytes, words, output))
}

// Makes the record that bytes hold the fresh machine of its layout. Gives 0, or the number of the refusal.
pub fn zenkorv_restart(bytes: &mut [u8]) -> u8
    ensures number { result ≡ number_of (restart_of bytes.old) }
    ensures bytes { bytes.new ≡ replaced bytes.old (restart_of bytes.old) }
{
    status(restart_held(bytes))
}
